//! A field whose enclaves other processes serve.
ghost use Rattle.std.specs.Prelude.{◌≡◌, None, IfOk};
ghost use Rattle.byte_streams.specs.Causes.{HasCauseAt};
ghost use Rattle.replica_server.specs.Looping.{field_faults, CountsFailures};

use crate::children::Children;
use enclave_host::{Field, FieldFault};
use std::alloc::Global;
use std::collections::BTreeMap;
use std::io::{self, ErrorKind};
use std::net::Net;
use std::process::Processes;
use values::{Memory, ReplicaId};

/// Enclaves that children of this process serve, each over two connections on the loopback address. It tells nothing of
/// them, and counts each failure: of the system, or of a child that ends, that is silent for a minute, or that sends
/// anything but batch frames. A child that failed is killed.
///
/// Where the field is let go, and so at the end of the program, its children are killed. Where the program itself is, their
/// connections are closed, and a child whose host has closed them ends.
#[derive(Drop)]
pub struct LoopField<R: Net + Processes> {
    children: Children<R>,
    faults: u64,
}

impl<R: Net + Processes + Drop> LoopField<R> {
    /// A field whose children run the program at this path, as `PATH serve --connect PORT`. Nothing is started yet, and no
    /// failure has come.
    pub fn new(rt: R, alloc: Global, program: &str) -> Result<LoopField<R>, Memory>
        ensures { IfOk result (λ field. field_faults field ≡ 0) }
    {
        Ok(LoopField {
            children: Children {
                rt,
                alloc,
                program: String::from_str(alloc, program)?,
                door: None,
                running: BTreeMap::new(alloc),
                frame: Vec::new(alloc),
            },
            faults: 0,
        })
    }
}

/// What became of a call: want of memory, or else a failure, which is counted.
fn counted(faults: &mut u64, done: io::Result<()>) -> Result<(), FieldFault>
    ensures cause { HasCauseAt FieldFault.Failed faults.old faults.new result }
    ensures counted { CountsFailures faults.old faults.new result }
{
    match done {
        Ok(()) => Ok(()),
        Err(error) if error.kind() == ErrorKind::OutOfMemory => Err(FieldFault::Memory),
        Err(_) => {
            *faults = faults.saturating_add(1);
            Err(FieldFault::Failed)
        }
    }
}

impl<R: Net + Processes + Drop> Field for LoopField<R> {
    ghost map = { λ _. None };

    ghost answers = { λ _. None };

    ghost faults = { field_faults };

    fn start(&mut self, id: ReplicaId, hello: &[u8]) -> Result<(), FieldFault>
        ensures cause { HasCauseAt FieldFault.Failed (field_faults self.old) (field_faults self.new) result }
        ensures counted { CountsFailures (field_faults self.old) (field_faults self.new) result }
    {
        counted(&mut self.faults, self.children.start(id, hello))
    }

    fn call(&mut self, id: ReplicaId, input: &[u8], out: &mut Vec<u8>) -> Result<(), FieldFault>
        ensures cause { HasCauseAt FieldFault.Failed (field_faults self.old) (field_faults self.new) result }
        ensures counted { CountsFailures (field_faults self.old) (field_faults self.new) result }
    {
        counted(&mut self.faults, self.children.call(id, input, out))
    }

    fn stop(&mut self, id: ReplicaId) -> Result<(), FieldFault>
        ensures cause { HasCauseAt FieldFault.Failed (field_faults self.old) (field_faults self.new) result }
        ensures counted { CountsFailures (field_faults self.old) (field_faults self.new) result }
    {
        counted(&mut self.faults, self.children.stop(id))
    }
}
