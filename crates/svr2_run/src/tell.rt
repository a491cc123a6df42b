//! One text is written at the end of a command.
ghost use Rattle.std.specs.Prelude.{◌≡◌, ◌≢◌, ◌≤◌, IfOk, OnErr};
ghost use Rattle.byte_streams.specs.Causes.{Rose};
ghost use Rattle.svr2_run.specs.Texts.{WroteText};

use crate::exit::Status;
use svr_base::{Memory, Sink, write_all};

/// Writes the text with which a command ends by this status. Without memory for it nothing is written.
pub fn tell<K: Sink>(sink: &mut K, text: Result<Vec<u8>, Memory>, status: Status) -> Status
    requires { status ≢ Status.WriteFault }
    ensures wrote { IfOk text (λ text. WroteText (K.taken sink.old) (K.taken sink.new) text.items status result) }
    ensures memory { OnErr text ((result ≡ Status.Memory) × (K.taken sink.new ≡ K.taken sink.old)) }
    ensures cause { result ≡ Status.WriteFault → Rose (K.faults sink.old) (K.faults sink.new) }
    ensures later { K.faults sink.old ≤ K.faults sink.new }
{
    let Ok(text) = text else {
        return Status::Memory;
    };
    match write_all(sink, text.as_slice()) {
        Ok(()) => status,
        Err(_) => Status::WriteFault,
    }
}
