//! The monitor's program: it hands the library the words of the command line, standard input, standard output and standard error.
#![tactic(auto)]

use lgp_desk::{Files, Manner, obey_session};
use lgp_lab::{Failed, FeedOf, READS, SinkOf, WordFault};
use lgp_monitor::Progress;
use std::fs::File;
use std::io::{IsTerminal, Read, Write};
use std::process::ExitCode;
use std::{env, fs, io};

/// What comes after a name in those that are tried for a new file beside it.
const ENDINGS: [&str; 4] = [".new", ".new1", ".new2", ".new3"];

/// The files of the system, by their paths, and the one that is open.
#[derive(Drop)]
struct HostFiles<'a> {
    rt: &'a HostRuntime,
    open: Option<File>,
}

/// A new file beside the one of a name, with its own name. Where there is one of that name, further names are tried.
fn file_beside(rt: &HostRuntime, name: &str) -> io::Result<(File, String)> {
    for ending in &ENDINGS {
        let beside = format!(in rt.alloc(); "{name}{ending}")?;
        match File::create_new(rt, beside.as_str()) {
            Ok(file) => return Ok((file, beside)),
            Err(error) if error.kind() == io::ErrorKind::AlreadyExists => {}
            Err(error) => return Err(error),
        }
    }
    Err(io::Error::from(io::ErrorKind::AlreadyExists))
}

/// Writes a text to a new file, and then puts that in the place of another one.
fn write_and_rename(
    rt: &HostRuntime,
    file: &mut File,
    beside: &str,
    name: &str,
    text: &[u8],
) -> io::Result<()> {
    file.write_all(text)?;
    fs::rename(rt, beside, name)
}

/// Writes a text to a new file beside the one of a name, and then puts that in its place. Where this fails, the new file is taken away.
fn replace_file(rt: &HostRuntime, name: &str, text: &[u8]) -> io::Result<()> {
    let (mut file, beside) = file_beside(rt, name)?;
    let replaced = write_and_rename(rt, &mut file, beside.as_str(), name, text);
    if replaced.is_err() {
        fs::remove_file(rt, beside.as_str())?;
    }
    replaced
}

impl Files for HostFiles<'_> {
    // Nothing is known of what files hold.
    ghost answer = { λ files call after. Unit {0} };

    fn open(&mut self, name: &str) -> bool {
        self.open = fs::open(self.rt, name).ok();
        self.open.is_some()
    }

    fn read(&mut self, buffer: &mut [u8]) -> Result<usize, Failed> {
        match &mut self.open {
            Some(file) => file.read(buffer).map_err(|_| Failed),
            None => Err(Failed),
        }
    }

    fn close(&mut self) {
        self.open = None;
    }

    fn keep(&mut self, name: &str, text: &[u8]) -> bool {
        replace_file(self.rt, name, text).is_ok()
    }
}

/// A given number of orders take about a second.
const PORTION: u64 = 20_000_000;

/// Shows on standard error how far long runs are, where a person sees it.
#[derive(Clone, Copy, Drop)]
struct ShownProgress<'a> {
    rt: &'a HostRuntime,
    is_shown: bool,
}

impl Progress for ShownProgress<'_> {
    fn portion(&self) -> u64 {
        if self.is_shown { PORTION } else { u64::MAX }
    }

    fn performed(&self, orders: u64) {
        // A run goes on where this cannot be written.
        let _ = eprint!(self.rt; "\r{orders} orders");
    }

    fn ended(&self) {
        let _ = eprint!(self.rt; "\r                 \r");
    }
}

/// The words of the command line, the program's name first.
fn words(rt: &HostRuntime) -> io::Result<Vec<String>> {
    let mut words = Vec::new(rt.alloc());
    for word in env::args(rt)? {
        words.push(word)?;
    }
    Ok(words)
}

/// Why the words of the command line cannot be read.
fn word_fault(error: &io::Error) -> WordFault {
    match error.kind() {
        io::ErrorKind::OutOfMemory => WordFault::Memory,
        _ => WordFault::NotText,
    }
}

/// How replies are written: with prompts where a person reads what is written and types, else bare.
fn manner(rt: &HostRuntime) -> Manner {
    if rt.stdin().is_terminal() && rt.stdout().is_terminal() {
        Manner::Prompting
    } else {
        Manner::Bare
    }
}

/// Shows how far long runs are where a person types and standard error is a terminal, too.
fn progress(rt: &HostRuntime) -> ShownProgress<'_> {
    ShownProgress {
        rt,
        is_shown: matches!(manner(rt), Manner::Prompting) && rt.stderr().is_terminal(),
    }
}

/// Does what the words of the command line ask for; answers the status.
fn obey(rt: &HostRuntime, words: Result<&[String], WordFault>) -> u8 {
    let mut input = FeedOf::new(rt.reader(), READS);
    let mut output = SinkOf::new(io::writer(rt));
    let mut messages = SinkOf::new(rt.stderr());
    obey_session(
        rt.alloc(),
        rt.alloc(),
        words,
        manner(rt),
        &mut HostFiles { rt, open: None },
        progress(rt),
        &mut input,
        &mut output,
        &mut messages,
    )
}

fn main(rt: HostRuntime) -> ExitCode {
    let status = match words(&rt) {
        Ok(words) => obey(&rt, Ok(&words)),
        Err(error) => obey(&rt, Err(word_fault(&error))),
    };
    ExitCode::from(status)
}
