//! Plays the schedule on standard input, as the program's word `replay` does. Its stored run is one that a bad record
//! ends, so that the gate compares an exit number other than 0 with what a file brings about.
#![tactic(auto)]

use group_world::LocalField;
use std::alloc::Global;
use std::process::ExitCode;
use svr_base::{Memory, StdSink, StdSource};
use svr2_run::{Status, run};

/// The word of the command.
fn words(alloc: Global) -> Result<Vec<String>, Memory> {
    let mut words = Vec::new(alloc);
    words.push(String::from_str(alloc, "replay")?)?;
    Ok(words)
}

fn main(rt: HostRuntime) -> ExitCode {
    let status = match words(rt.alloc()) {
        Ok(words) => {
            let mut source = StdSource::new(rt.stdin());
            let mut sink = StdSink::new(rt.stdout());
            let field = LocalField::new(rt.alloc());
            let (status, _field) = run(rt.alloc(), words.as_slice(), &mut source, &mut sink, field);
            status
        }
        Err(Memory) => Status::Memory,
    };
    ExitCode::from(status.code())
}
