//! The drill of a seed: what its run came to is written, and nothing is read.
ghost use Rattle.std.specs.Prelude.{◌≡◌, ◌≤◌, IfOk};
ghost use Rattle.sha2.specs.Sha256.{sha256};
ghost use Rattle.byte_streams.specs.Causes.{Rose};
ghost use Rattle.replica_model.specs.Linked.{sha_link};
ghost use Rattle.trace_model.specs.Summary as spec;
ghost use Rattle.svr2_run.specs.Drills.{DrillsTo};

use crate::exit::Status;
use crate::tell::tell;
use drill_command::{play_drill, write_summary};
use std::alloc::Global;
use svr_base::{Memory, Sink};

/// The summary of the drill of this seed and number of clients, which is played.
fn summary(alloc: Global, seed: u64, clients: u32) -> Result<Vec<u8>, Memory>
    requires least { 1 ≤ clients }
    requires most { clients ≤ 2000 }
    ensures { IfOk result (λ text. text.items ≡ spec.summary sha256 sha_link seed clients) }
{
    let tally = play_drill(alloc, seed, clients)?;
    let mut text = Vec::new(alloc);
    write_summary(&tally, seed, clients, &mut text)?;
    Ok(text)
}

/// Plays the drill of this seed and number of clients, and writes its summary to the sink.
pub fn drill<K: Sink>(alloc: Global, seed: u64, clients: u32, sink: &mut K) -> Status
    requires least { 1 ≤ clients }
    requires most { clients ≤ 2000 }
    ensures drills { DrillsTo seed clients (K.taken sink.old) (K.taken sink.new) result }
    ensures write_cause { result ≡ Status.WriteFault → Rose (K.faults sink.old) (K.faults sink.new) }
    ensures write_later { K.faults sink.old ≤ K.faults sink.new }
{
    tell(sink, summary(alloc, seed, clients), Status::Done)
}
