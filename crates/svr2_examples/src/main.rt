//! Runs the examples. Standard input holds one after the other, each a line `== WORDS` with what the command of these words reads behind
//! it; to standard output goes that line, what the command writes, and its exit status. So the gate compares what stands in examples/ with
//! what the program does.
#![tactic(auto)]

use byte_streams::PIECE;
use group_world::LocalField;
use std::alloc::Global;
use std::io::{self, Write};
use std::process::ExitCode;
use svr_base::{MemSource, Memory, StdSink};
use svr2_run::{Status, run};

/// What stands before the words of a command.
const MARK: &str = "== ";

/// The words of a line, without the mark.
fn words_of(alloc: Global, line: &str) -> Result<Vec<String>, Memory> {
    let mut words = Vec::new(alloc);
    for word in line.split(' ') {
        words.push(String::from_str(alloc, word)?)?;
    }
    Ok(words)
}

/// Runs the words over a text.
fn run_over(rt: &HostRuntime, line: &str, text: &str) -> Result<Status, Memory> {
    let alloc = rt.alloc();
    let words = words_of(alloc, line)?;
    let mut source = MemSource::new(
        Vec::from_slice(alloc, text.as_bytes())?,
        PIECE,
        Vec::new(alloc),
    );
    let mut sink = StdSink::new(rt.stdout());
    let (status, _field) = run(
        alloc,
        words.as_slice(),
        &mut source,
        &mut sink,
        LocalField::new(alloc),
    );
    Ok(status)
}

/// Runs one example: its first line without the mark, and what stands behind it.
fn run_example(rt: &HostRuntime, example: &str) -> io::Result<()> {
    let (line, text) = example.split_once('\n').unwrap_or((example, ""));
    writeln!(rt.stdout(), "{MARK}{line}")?;
    match run_over(rt, line, text) {
        Ok(status) => writeln!(rt.stdout(), "status {}", status.code()),
        Err(Memory) => Err(io::ErrorKind::OutOfMemory.into()),
    }
}

fn run_examples(rt: &HostRuntime) -> io::Result<()> {
    let text = io::read_to_string(rt.alloc(), rt.stdin())?;
    for example in text.as_str().split(MARK).skip(1) {
        run_example(rt, example)?;
    }
    Ok(())
}

fn main(rt: HostRuntime) -> ExitCode {
    match run_examples(&rt) {
        Ok(()) => ExitCode::SUCCESS,
        Err(_) => ExitCode::FAILURE,
    }
}
