//! The command line as `clap` is given it, with its help.

ghost use Rattle.std.specs.Prelude.{◌≡◌, IfOk, Some, codes, false};
ghost use Rattle.clap.specs.Words.{App, Rule, app_of, new_app, new_rule, rule_of, with_rule, with_subcommand};
ghost use Rattle.clap.specs.declared.builder.action.ArgAction.TheVariants.{SetTrue};
ghost use Rattle.clap.specs.declared.builder.command.Command.TheViews.{out-Command as fields_of};
ghost use Rattle.lgp_task.specs.CommandLine.{any_files_rule, bare_line, batch_command, command_line, file_command, file_rule, files_rule, limit_rule, monitor_line, run_command};

use clap::{Arg, ArgAction, Command, value_parser};
use std::alloc::{AllocError, Global};

/// How the argument is called that names a file.
pub(crate) const FILE: &str = "FILE";

/// How the argument is called that has each line shown above its reply.
pub(crate) const ECHO: &str = "echo";

/// The name of the flag for replies as values of JSON.
pub(crate) const JSON: &str = "json";

/// The version of the program, and of all its crates.
const VERSION: &str = "0.1.0";

/// How the argument is called that limits a run.
pub(crate) const LIMIT: &str = "LIMIT";

/// One file.
fn file<'a>(global: Global, help: &'a str) -> Arg<'a>
    ensures rule { rule_of result ≡ file_rule }
    ensures own { result.global ≡ false }
{
    Arg::new(global, FILE).required(true).help(help)
}

/// Files, or none.
fn any_files<'a>(global: Global, help: &'a str) -> Arg<'a>
    ensures rule { rule_of result ≡ any_files_rule }
    ensures own { result.global ≡ false }
{
    Arg::new(global, FILE).num_args(1..).help(help)
}

/// One file or more.
fn files<'a>(global: Global, help: &'a str) -> Arg<'a>
    ensures rule { rule_of result ≡ files_rule }
    ensures own { result.global ≡ false }
{
    any_files(global, help).required(true)
}

/// How many orders a run may take.
fn limit<'a>(global: Global) -> Arg<'a>
    ensures rule { rule_of result ≡ limit_rule }
    ensures own { result.global ≡ false }
{
    Arg::new(global, LIMIT)
        .required(true)
        .value_parser(value_parser!(u32))
        .help("How many orders the program may perform, 0 to 4294967295")
}

/// A command without arguments: what it does in a line, what it does in full, and an example of its use.
fn command<'a>(
    global: Global,
    name: &'a str,
    about: &'a str,
    long_about: &'a str,
    example: &'a str,
) -> Command<'a>
    ensures app { app_of result ≡ new_app name.now }
    ensures own { (fields_of result).has_globals ≡ false }
{
    Command::new(global, name)
        .about(about)
        .long_about(long_about)
        .after_long_help(example)
}

/// A command with one argument more, if the command could be made.
fn with_argument<'a>(
    command: Result<Command<'a>, AllocError>,
    argument: Arg<'a>,
) -> Result<Command<'a>, AllocError>
    requires own { argument.global ≡ false }
    ensures app { (app : App) → (rule : Rule) → rule_of argument.entry ≡ rule
        → IfOk command.entry (λ command. app_of command ≡ app)
        → IfOk result (λ new. app_of new ≡ with_rule app rule) }
    ensures own { IfOk command.entry (λ command. (fields_of command).has_globals ≡ false)
        → IfOk result (λ new. (fields_of new).has_globals ≡ false) }
{
    command?.arg(argument)
}

/// A command line with one command more, if both could be made.
fn with_command<'a>(
    line: Result<Command<'a>, AllocError>,
    command: Result<Command<'a>, AllocError>,
) -> Result<Command<'a>, AllocError>
    requires own { IfOk command (λ command. (fields_of command).has_globals ≡ false) }
    ensures { (app : App) → (sub : App) → IfOk line.entry (λ line. app_of line ≡ app)
        → IfOk command.entry (λ command. app_of command ≡ sub)
        → IfOk result (λ new. app_of new ≡ with_subcommand app sub.top) }
{
    line?.subcommand(command?)
}

/// A command of this name, which takes a file: what it does in a line, what it does in full, an example of its use, and what the
/// file is.
fn file_command<'a>(
    global: Global,
    name: &'a str,
    about: &'a str,
    long_about: &'a str,
    example: &'a str,
    help: &'a str,
) -> Result<Command<'a>, AllocError>
    ensures app { IfOk result (λ command. app_of command ≡ file_command name.now) }
    ensures own { IfOk result (λ command. (fields_of command).has_globals ≡ false) }
{
    let command = command(global, name, about, long_about, example);
    with_argument(Ok(command), file(global, help))
}

/// What the file of a command is that assembles it.
const SOURCE: &str = "The source, a text file";

/// `asm FILE`
fn asm_command<'a>(global: Global) -> Result<Command<'a>, AllocError>
    ensures app { IfOk result (λ command. app_of command ≡ file_command (codes "asm")) }
    ensures own { IfOk result (λ command. (fields_of command).has_globals ≡ false) }
{
    file_command(
        global,
        "asm",
        "Assemble a source and write its listing",
        "Assemble a source and write its listing: the address and the word of each line, and then \
         the line itself. If the source has faults, they are written instead, one on each line.",
        "Example: write the listing of a program.\n  \
         lgp_lab asm examples/loader-by-hand.source",
        SOURCE,
    )
}

/// `tape FILE`
fn tape_command<'a>(global: Global) -> Result<Command<'a>, AllocError>
    ensures app { IfOk result (λ command. app_of command ≡ file_command (codes "tape")) }
    ensures own { IfOk result (λ command. (fields_of command).has_globals ≡ false) }
{
    file_command(
        global,
        "tape",
        "Assemble a source and write the paper tape that loads it",
        "Assemble a source and write, as text, the paper tape from which the loader stores its \
         words and starts it. A script mounts the tape with the command mount.",
        "Example: make the tape of a program.\n  \
         lgp_lab tape examples/loader-by-hand.source",
        SOURCE,
    )
}

/// `run FILE LIMIT`
fn run_command<'a>(global: Global) -> Result<Command<'a>, AllocError>
    ensures app { IfOk result (λ command. app_of command ≡ run_command) }
    ensures own { IfOk result (λ command. (fields_of command).has_globals ≡ false) }
{
    let run = file_command(
        global,
        "run",
        "Assemble a source, load it into a new machine and run it",
        "Assemble a source, load it into a new machine as its operator would, by keying in the \
         loader and reading the tape, and run it until it stops or has performed LIMIT orders. \
         Then write what was printed, and the registers, status, switches and clock.",
        "Example: run a program for at most 1000 orders.\n  \
         lgp_lab run examples/loader-by-hand.source 1000",
        SOURCE,
    );
    with_argument(run, limit(global))
}

/// `script FILE`
fn script_command<'a>(global: Global) -> Result<Command<'a>, AllocError>
    ensures app { IfOk result (λ command. app_of command ≡ file_command (codes "script")) }
    ensures own { IfOk result (λ command. (fields_of command).has_globals ≡ false) }
{
    file_command(
        global,
        "script",
        "Run a script and write its replies",
        "Run a script, which has a command of the laboratory on each line, on a new machine, and \
         write the reply to each command.",
        "Example: run the commands in a file.\n  lgp_lab script examples/first-run.txt",
        "The script, a text file",
    )
}

/// `batch FILE..`
fn batch_command<'a>(global: Global) -> Result<Command<'a>, AllocError>
    ensures app { IfOk result (λ command. app_of command ≡ batch_command) }
    ensures own { IfOk result (λ command. (fields_of command).has_globals ≡ false) }
{
    let batch = command(
        global,
        "batch",
        "Run several scripts, each on a machine of its own",
        "Run several scripts one after another, each on a new machine. Write `file` and the name \
         of each script before its replies.",
        "Example: run two scripts.\n  \
         lgp_lab batch examples/first-run.txt examples/message.txt",
    );
    with_argument(Ok(batch), files(global, "The scripts, text files"))
}

/// A program of this name, without its commands and arguments, which knows its version.
fn bare_line<'a>(
    global: Global,
    name: &'a str,
    about: &'a str,
    long_about: &'a str,
    example: &'a str,
) -> Result<Command<'a>, AllocError>
    ensures { IfOk result (λ line. app_of line ≡ bare_line name.now) }
{
    command(global, name, about, long_about, example)
        .version(VERSION)
        .bin_name(name)
}

/// The whole command line.
#[tactic(auto, unfolding(crate::specs::CommandLine::command_line))]
pub(crate) fn command_line<'a>(global: Global) -> Result<Command<'a>, AllocError>
    ensures { IfOk result (λ line. app_of line ≡ command_line) }
{
    let line = bare_line(
        global,
        "lgp_lab",
        "A laboratory for the LGP-30, a drum computer of 1956",
        "A laboratory for the LGP-30, a drum computer of 1956: it assembles programs, makes paper \
         tapes, and runs the machine from its console, step by step and back again. Without a \
         command it runs the script on standard input.",
        "Example: run a script, and then a program.\n  lgp_lab < examples/first-run.txt\n  \
         lgp_lab run examples/loader-by-hand.source 1000",
    );
    let line = with_command(line, asm_command(global));
    let line = with_command(line, tape_command(global));
    let line = with_command(line, run_command(global));
    let line = with_command(line, script_command(global));
    with_command(line, batch_command(global))
}

/// `--NAME`, there or not.
fn flag<'a>(global: Global, name: &'a str, help: &'a str) -> Arg<'a>
    ensures rule { rule_of result ≡ record (new_rule name.now) {
      long = Some name.now;
      action = Some SetTrue;
    } }
    ensures own { result.global ≡ false }
{
    Arg::new(global, name)
        .long(name)
        .action(ArgAction::SetTrue)
        .help(help)
}

/// `lgp_monitor`, which takes files, `--echo` and `--json`.
#[tactic(auto, unfolding(crate::specs::CommandLine::monitor_line))]
pub(crate) fn monitor_line<'a>(global: Global) -> Result<Command<'a>, AllocError>
    ensures { IfOk result (λ line. app_of line ≡ monitor_line) }
{
    let line = bare_line(
        global,
        "lgp_monitor",
        "A monitor for the LGP-30: run the machine line by line",
        "A monitor for the LGP-30, a drum computer of 1956. It reads lines, first from the files \
         and then from standard input, carries out each of them, and writes its reply. The \
         command help lists the commands.",
        "Example: answer the lines in a file, and then those that are typed.\n  \
         lgp_monitor examples/self-modifying.typed",
    );
    let help = "Text files whose lines are read before standard input";
    let line = with_argument(line, any_files(global, help));
    let echo = flag(global, ECHO, "Show each line above its reply");
    let line = with_argument(line, echo);
    let help = "Write each reply as a JSON object on a line of its own";
    with_argument(line, flag(global, JSON, help))
}
