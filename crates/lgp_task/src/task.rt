//! What the words of the command line ask for.

ghost use Rattle.std.specs.Prelude.{◌≡◌, ◌∷◌, [], IfErr, IfOk, OnOk, codes, if◌then◌else◌, true, map};
ghost use Rattle.std.specs.Str.{bytes_eq};
ghost use Rattle.std.specs.String.{string_bytes};
ghost use Rattle.clap.specs.Words.{fault_of, found_of, kind_of, rows_of, subcommand_of, subcommand_rows_of, takes};
ghost use Rattle.clap.specs.declared.error.kind.ErrorKind.TheVariants.{OutOfMemory};
ghost use Rattle.lgp_task.specs.CommandLine.{command_line};
ghost use Rattle.lgp_task.specs.Task.{AskForTask, IsRefusalOf, file_in, files_in, limit_in, task_in, task_named};

use crate::command_line::{FILE, LIMIT, command_line};
use crate::files::{FileName, FileNames};
use clap::error::ErrorKind;
use clap::{ArgMatches, Error};
use std::alloc::{AllocError, Allocator, Global};
use thiserror::Error;

/// What the program is to do.
#[derive(Debug, Drop)]
pub enum Task<A: Allocator = Global> {
    /// Run the script on standard input.
    Stdin,
    /// Write the listing of a source.
    Asm(FileName<A>),
    /// Write the tape of a source.
    Tape(FileName<A>),
    /// Load a source into a new machine and run it for at most a given number of orders.
    Run(FileName<A>, u64),
    /// Run a script.
    Script(FileName<A>),
    /// Run several scripts, each on a machine of its own.
    Batch(FileNames<A>),
}

/// Why the words hold no task.
#[derive(Debug, Drop, Error)]
pub enum TaskFault<A: Allocator = Global> {
    /// The words are mistaken: the text says how, and how the program is called.
    #[error("{0}")]
    Usage(String<A>),
    /// The words ask for help or for the version: the text is that.
    #[error("{0}")]
    Help(String<A>),
    /// A growth was refused.
    #[error("out of memory")]
    Memory,
}

impl<A: Allocator> From<AllocError> for TaskFault<A> {
    ghost use Rattle.lgp_task.specs.declared.task.TaskFault.TheVariants.{Memory};

    ghost from_gives = { λ _ fault. fault ≡ Memory };

    fn from(_error: AllocError) -> TaskFault<A> {
        TaskFault::Memory
    }
}

/// The file of a command.
fn file_of<A: Allocator>(alloc: A, matches: &ArgMatches<'_>) -> Result<FileName<A>, AllocError>
    ensures { IfOk result (λ name. name ≡ file_in (rows_of (found_of matches.now))) }
{
    FileName::new(alloc, matches.get_str(FILE).unwrap_or(""))
}

/// The files of a command.
pub(crate) fn files_of<A: Allocator + Copy>(
    alloc: A,
    matches: &ArgMatches<'_>,
) -> Result<FileNames<A>, AllocError>
    ensures { IfOk result (λ names. names ≡ files_in (rows_of (found_of matches.now))) }
{
    let mut files = FileNames::new(alloc);
    for name in matches.get_strs(FILE).unwrap_or(&[]) {
        files.push(FileName::new(alloc, name)?)?;
    }
    Ok(files)
}

/// The limit of a command.
fn limit_of(matches: &ArgMatches<'_>) -> u64
    ensures { result ≡ limit_in (rows_of (found_of matches.now)) }
{
    matches.get_one::<u64>(LIMIT).unwrap_or(0)
}

/// The task of the command of this name, where it takes a file.
fn file_task<A: Allocator>(name: &str, file: FileName<A>, limit: u64) -> Task<A>
    ensures { result ≡ (if bytes_eq name.now (codes "asm") then Task.Asm file
        else (if bytes_eq name.now (codes "tape") then Task.Tape file
        else (if bytes_eq name.now (codes "run") then Task.Run file limit
        else Task.Script file))) }
{
    if name == "asm" {
        return Task::Asm(file);
    }
    if name == "tape" {
        return Task::Tape(file);
    }
    if name == "run" {
        Task::Run(file, limit)
    } else {
        Task::Script(file)
    }
}

/// The task of the command of this name.
fn named_task<A: Allocator + Copy>(
    alloc: A,
    name: &str,
    matches: &ArgMatches<'_>,
) -> Result<Task<A>, TaskFault<A>>
    ensures task { IfOk result (λ task.
        task ≡ task_named name.now (rows_of (found_of matches.now))) }
    ensures memory { IfErr result (λ fault. fault ≡ TaskFault.Memory) }
{
    if name == "asm" || name == "tape" || name == "run" || name == "script" {
        let file = file_of(alloc, matches)?;
        return Ok(file_task(name, file, limit_of(matches)));
    }
    Ok(Task::Batch(files_of(alloc, matches)?))
}

/// The task of the command that was matched.
fn matched_task<A: Allocator + Copy>(
    alloc: A,
    matches: &ArgMatches<'_>,
) -> Result<Task<A>, TaskFault<A>>
    ensures task { IfOk result (λ task. task ≡ task_in (subcommand_rows_of matches.now)) }
    ensures memory { IfErr result (λ fault. fault ≡ TaskFault.Memory) }
{
    match matches.subcommand() {
        None => Ok(Task::Stdin),
        Some((name, matches)) => named_task(alloc, name, matches),
    }
}

/// The refusal of words for a fault that `clap` found in them.
pub(crate) fn refusal<A: Allocator>(alloc: A, fault: Error) -> TaskFault<A>
    ensures memory { kind_of fault ≡ OutOfMemory → result ≡ TaskFault.Memory }
    ensures cause { IsRefusalOf (kind_of fault ∷ []) result }
{
    if matches!(fault.kind(), ErrorKind::OutOfMemory) {
        return TaskFault::Memory;
    }
    let Ok(text) = fault.to_string(alloc) else {
        return TaskFault::Memory;
    };
    if fault.use_stderr() {
        TaskFault::Usage(text)
    } else {
        TaskFault::Help(text)
    }
}

/// The task that the words of the command line ask for, of which the first is the program's name. `clap` reads them, and
/// takes its own memory from the global allocator; the names in the task and the text of a fault are from `alloc`.
pub fn task_of<A: Allocator + Copy>(
    global: Global,
    alloc: A,
    words: &[String],
) -> Result<Task<A>, TaskFault<A>>
    ensures task { IfOk result (λ task.
        task ≡ task_in (subcommand_of command_line (map string_bytes words.now))) }
    ensures asked { OnOk result (AskForTask (map string_bytes words.now)) }
    ensures memory { takes command_line (map string_bytes words.now) ≡ true
        → IfErr result (λ fault. fault ≡ TaskFault.Memory) }
    ensures cause { IfErr result (λ fault.
        IsRefusalOf (fault_of command_line (map string_bytes words.now)) fault) }
{
    let line = command_line(global)?;
    match line.try_get_matches_from(words) {
        Ok(matches) => matched_task(alloc, &matches),
        Err(fault) => Err(refusal(alloc, fault)),
    }
}
