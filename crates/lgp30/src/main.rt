//! The LGP-30 laboratory's program: it hands the library the words of the command line, files, standard input, standard output and
//! standard error.
#![tactic(auto)]

ghost use Rattle.std.specs.Prelude.{None};

use lgp_lab::{Feed, FeedOf, Folder, NotOpened, READS, SinkOf, WordFault, obey};
use std::fs::File;
use std::process::ExitCode;
use std::{env, fs, io};

/// The files of the system, by their paths, and whether a read of one has failed. Nothing is known of them.
#[derive(Clone, Copy)]
struct HostFolder<'a> {
    rt: &'a HostRuntime,
    has_failed: bool,
}

impl Folder for HostFolder<'_> {
    type Reader = FeedOf<File>;

    ghost opens = { λ folder name. None };

    ghost contents = { λ folder name. None };

    ghost failed = { λ folder. folder.has_failed };

    fn open(&self, name: &str) -> Result<FeedOf<File>, NotOpened> {
        match fs::open(self.rt, name) {
            Ok(file) => Ok(FeedOf::new(file, READS)),
            Err(_) => Err(NotOpened),
        }
    }

    fn close(&mut self, reader: FeedOf<File>) {
        self.has_failed = self.has_failed || reader.has_failed();
    }
}

/// The words of the command line, the program's name first.
fn words(rt: &HostRuntime) -> io::Result<Vec<String>> {
    let mut words = Vec::new(rt.alloc());
    for word in env::args(rt)? {
        words.push(word)?;
    }
    Ok(words)
}

/// Why the words of the command line cannot be read.
fn word_fault(error: &io::Error) -> WordFault {
    match error.kind() {
        io::ErrorKind::OutOfMemory => WordFault::Memory,
        _ => WordFault::NotText,
    }
}

/// Does what the words of the command line ask for; answers the status.
fn run(rt: &HostRuntime, words: Result<&[String], WordFault>) -> u8 {
    let mut folder = HostFolder {
        rt,
        has_failed: false,
    };
    let mut input = FeedOf::new(rt.reader(), READS);
    let mut output = SinkOf::new(io::writer(rt));
    let mut messages = SinkOf::new(rt.stderr());
    obey(
        rt.alloc(),
        rt.alloc(),
        words,
        &mut folder,
        &mut input,
        &mut output,
        &mut messages,
    )
}

fn main(rt: HostRuntime) -> ExitCode {
    let status = match words(&rt) {
        Ok(words) => run(&rt, Ok(&words)),
        Err(error) => run(&rt, Err(word_fault(&error))),
    };
    ExitCode::from(status)
}
