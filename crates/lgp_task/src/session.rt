//! The words of the monitor's command line.

ghost use Rattle.std.specs.Prelude.{◌≡◌, [], IfErr, IfOk, OnOk, map, true};
ghost use Rattle.std.specs.String.{string_bytes};
ghost use Rattle.clap.specs.Words.{fault_of, found_of, rows_of, takes};
ghost use Rattle.lgp_task.specs.CommandLine.{monitor_line};
ghost use Rattle.lgp_task.specs.Task.{IsRefusalOf, has_flag, session_for, session_in};

use crate::command_line::{ECHO, JSON, monitor_line};
use crate::files::FileNames;
use crate::task::{TaskFault, files_of, refusal};
use clap::ArgMatches;
use std::alloc::{Allocator, Global};
use std::marker::Model;

/// What a session of the monitor begins with. Clauses see the names of its files, in the order in which they were typed, whether each
/// line is shown above its reply, and whether each reply is a value of JSON.
#[derive(Debug, Drop)]
pub struct SessionTask<A: Allocator = Global> {
    files: FileNames<A>,
    is_echoing: bool,
    is_json: bool,
}

impl<A: Allocator> Model for SessionTask<A> {
    ghost use Rattle.lgp_task.specs.Task.{SessionTask};

    ghost Value = { SessionTask };

    ghost view = { λ task. record {
      files = task.files;
      is_echoing = task.is_echoing;
      is_json = task.is_json;
    } };
}

impl<A: Allocator> SessionTask<A> {
    /// The files whose lines come first.
    pub fn files(&self) -> &FileNames<A>
        ensures { result.now ≡ self.now.files }
    {
        &self.files
    }

    /// Whether each line is shown above its reply.
    pub fn is_echoing(&self) -> bool
        ensures { result ≡ self.now.is_echoing }
    {
        self.is_echoing
    }

    /// Whether each reply is a value of JSON.
    pub fn is_json(&self) -> bool
        ensures { result ≡ self.now.is_json }
    {
        self.is_json
    }
}

/// Whether the matches have a flag.
fn has_flag(matches: &ArgMatches<'_>, name: &'static str) -> bool
    ensures { result ≡ has_flag name.now (rows_of (found_of matches.now)) }
{
    matches.get_str(name).unwrap_or("") == "true"
}

/// The session that matches ask for.
fn session_of<A: Allocator + Copy>(
    alloc: A,
    matches: &ArgMatches<'_>,
) -> Result<SessionTask<A>, TaskFault<A>>
    ensures task { IfOk result (λ task.
        task ≡ session_in (rows_of (found_of matches.now))) }
    ensures memory { IfErr result (λ fault. fault ≡ TaskFault.Memory) }
{
    Ok(SessionTask {
        files: files_of(alloc, matches)?,
        is_echoing: has_flag(matches, ECHO),
        is_json: has_flag(matches, JSON),
    })
}

/// The session that the words of the monitor's command line ask for, of which the first is the program's name. `clap` reads them,
/// and takes its own memory from the global allocator; the names of files and the text of a fault are from `alloc`.
pub fn ask_for_session<A: Allocator + Copy>(
    global: Global,
    alloc: A,
    words: &[String],
) -> Result<SessionTask<A>, TaskFault<A>>
    ensures task { IfOk result (λ task. task ≡ session_for (map string_bytes words.now)) }
    ensures asked { OnOk result (fault_of monitor_line (map string_bytes words.now) ≡ []) }
    ensures memory { takes monitor_line (map string_bytes words.now) ≡ true
        → IfErr result (λ fault. fault ≡ TaskFault.Memory) }
    ensures cause { IfErr result (λ fault.
        IsRefusalOf (fault_of monitor_line (map string_bytes words.now)) fault) }
{
    let line = monitor_line(global)?;
    match line.try_get_matches_from(words) {
        Ok(matches) => session_of(alloc, &matches),
        Err(fault) => Err(refusal(alloc, fault)),
    }
}
