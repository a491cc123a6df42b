//! The program: the picture of the trace on standard input goes to standard output.
#![tactic(auto)]

mod options;

use byte_streams::{StdSink, StdSource, write_all};
use options::read_options;
use std::alloc::Global;
use std::env::{self, Env};
use std::io::ErrorKind;
use std::process::ExitCode;
use trace_picture::{Drawn, View, draw_source};

/// Why there is no picture.
#[derive(Clone, Copy, Debug, PartialEq, Eq)]
enum Fault {
    Memory,
    /// The words are no view.
    Usage,
    ReadFault,
    WriteFault,
    /// The trace is too long.
    Limit,
    /// The line of this number, from 1, is none of a trace.
    NoLine(u64),
}

impl Fault {
    /// The exit status: that of the program `svr2` for the same.
    fn code(self) -> u8 {
        match self {
            Fault::Memory => 1,
            Fault::Usage => 2,
            Fault::ReadFault => 4,
            Fault::WriteFault => 5,
            Fault::Limit => 7,
            Fault::NoLine(_) => 9,
        }
    }
}

/// The words of the command line: the program's name and its options.
fn words(rt: &(impl Env + AllocGlobal)) -> Result<Vec<String>, Fault> {
    let mut words = Vec::new(rt.alloc());
    match env::args(rt) {
        Ok(args) => {
            for word in args {
                words.push(word).map_err(|_| Fault::Memory)?;
            }
            Ok(words)
        }
        Err(error) if error.kind() == ErrorKind::OutOfMemory => Err(Fault::Memory),
        Err(_) => Err(Fault::Usage),
    }
}

/// The events that the words ask for.
fn view(alloc: Global, words: &[String]) -> Result<View, Fault> {
    match read_options(alloc, words) {
        Ok(Some(view)) => Ok(view),
        Ok(None) => Err(Fault::Usage),
        Err(_) => Err(Fault::Memory),
    }
}

/// Draws standard input.
fn run(rt: &HostRuntime) -> Result<(), Fault> {
    let view = view(rt.alloc(), words(rt)?.as_slice())?;
    let picture = match draw_source(rt.alloc(), &mut StdSource::new(rt.stdin()), view) {
        Drawn::Picture(picture) => picture,
        Drawn::NoLine(number) => return Err(Fault::NoLine(number)),
        Drawn::Memory => return Err(Fault::Memory),
        Drawn::ReadFault => return Err(Fault::ReadFault),
        Drawn::Limit => return Err(Fault::Limit),
    };
    match write_all(&mut StdSink::new(rt.stdout()), picture.as_bytes()) {
        Ok(()) => Ok(()),
        Err(_) => Err(Fault::WriteFault),
    }
}

/// Says on standard error why there is no picture.
fn say(rt: &HostRuntime, fault: Fault) {
    let _ = match fault {
        Fault::Memory => eprintln!(rt; "svr2: memory"),
        Fault::Usage => eprintln!(rt; "svr2: usage"),
        Fault::ReadFault => eprintln!(rt; "svr2: read fault"),
        Fault::WriteFault => eprintln!(rt; "svr2: write fault"),
        Fault::Limit => eprintln!(rt; "svr2: limit"),
        Fault::NoLine(number) => eprintln!(rt; "svr2: line {number} is none of a trace"),
    };
}

fn main(rt: HostRuntime) -> ExitCode {
    match run(&rt) {
        Ok(()) => ExitCode::SUCCESS,
        Err(fault) => {
            say(&rt, fault);
            ExitCode::from(fault.code())
        }
    }
}
