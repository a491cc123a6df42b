//! A schedule is played from a source to a sink, over any field.
ghost use Rattle.std.specs.Prelude.{ℕ, ◌≡◌, ◌≢◌, ◌≤◌, List, Option, None, IfSome, IsSome, length};
ghost use Rattle.byte_streams.specs.Causes.{Rose};
ghost use Rattle.record_cutting.specs.Lines.{records_of};
ghost use Rattle.record_stream.specs.Ends.{limit};
ghost use Rattle.group_world.specs.Runs as spec;
ghost use Rattle.group_world.specs.Runs.{DecidedOver, FailedOver, OverContents, OverEnclaves, RunsAfter};

use crate::halt::Halt;
use crate::player::GroupPlayer;
use crate::world::World;
use enclave_host::Field;
use record_stream::{Ended, play_source};
use std::alloc::Global;
use svr_base::{Sink, Source};
use trace_text::Quantity;
use values::Cause;

/// A quantity that is limited.
#[derive(Clone, Copy, Debug, PartialEq, Eq)]
pub enum Which {
    /// The bytes of a schedule.
    Bytes,
    Events,
    Messages,
    Answers,
    /// Replicas that were started.
    Replicas,
    /// Saved states.
    States,
    Clients,
}

/// How the playing of a schedule ended.
#[derive(Clone, Copy, Debug, PartialEq, Eq)]
pub enum Played {
    /// The source was read to its end, and the whole trace was written.
    Done,
    /// Memory ran out.
    Memory,
    /// The record of this number, from 1, means nothing for this cause, at this field; 0 is the record as a whole.
    Schedule {
        line: u64,
        cause: Cause,
        field: usize,
    },
    /// The source failed.
    ReadFault,
    /// The sink failed.
    WriteFault,
    /// The field failed.
    FieldFault,
    /// The source holds more bytes than are played, or an event would pass, or has passed, another limit.
    Limit(Which),
    /// What the field answered is no batch, from this offset on.
    Frame(u64),
}

/// The quantity of an event.
fn which_of(quantity: Quantity) -> Which
    ensures { result ≡ spec.which_of quantity }
{
    match quantity {
        Quantity::Events => Which::Events,
        Quantity::Messages => Which::Messages,
        Quantity::Answers => Which::Answers,
        Quantity::Replicas => Which::Replicas,
        Quantity::States => Which::States,
        Quantity::Clients => Which::Clients,
    }
}

/// What a halt makes of the whole.
fn halted_by(halt: Halt) -> Played
    ensures { result ≡ spec.halted_as halt }
{
    match halt {
        Halt::Record {
            number,
            cause,
            field,
        } => Played::Schedule {
            line: number,
            cause,
            field,
        },
        Halt::Limit(quantity) => Played::Limit(which_of(quantity)),
        Halt::Frame(at) => Played::Frame(at),
    }
}

/// What the end of the records makes of the whole.
fn played_by(ended: Ended<Halt>) -> Played
    ensures { result ≡ spec.played_by ended }
{
    match ended {
        Ended::Done => Played::Done,
        Ended::Stopped(halt) => halted_by(halt),
        Ended::Memory => Played::Memory,
        Ended::ReadFault => Played::ReadFault,
        Ended::WriteFault => Played::WriteFault,
        Ended::Limit => Played::Limit(Which::Bytes),
        Ended::Failed => Played::FieldFault,
    }
}

/// Plays a schedule from the source over the field, writes its trace to the sink, and gives the field back.
///
/// Reads at most 65,536 bytes at once, and plays at most 67,108,864. The lines of all records that one read ends are
/// written before the next read, and before the end, however it comes. Want of memory is the one free end.
pub fn play<S: Source, K: Sink, F: Field>(
    alloc: Global,
    source: &mut S,
    sink: &mut K,
    field: F,
) -> (Played, F)
    // In a field that tells who runs, nobody does.
    requires { IfSome (F.map field) (λ now. (id : ℕ) → now id ≡ None) }

    // Over a field that tells who runs, the trace over the model's enclaves,
    ensures trace { IfSome (S.left source.old) (λ all. IsSome (F.map field)
        → OverEnclaves all (S.left source.new) (K.taken sink.old) (K.taken sink.new) result.0) }
    // or, where the field failed in an ask of the trace, exactly the lines of the events before the one that asked it.
    ensures failed { result.0 ≡ Played.FieldFault → IfSome (S.left source.old) (λ all. IsSome (F.map field)
        → FailedOver (F.answers field) (F.answers result.1) all (K.taken sink.old) (K.taken sink.new)) }
    // After all records the replicas of the model's group run in that field, and nobody else does.
    ensures replicas { result.0 ≡ Played.Done → IfSome (S.left source.old) (λ all. IsSome (F.map field) → RunsAfter all (F.map result.1)) }
    // Over a field that tells its answers, the trace from the contents that it gave, all of which it takes.
    ensures contents { IfSome (S.left source.old) (λ all.
        OverContents (F.answers field) (F.answers result.1) all (S.left source.new) (K.taken sink.old) (K.taken sink.new) result.0) }

    // Where nothing fails, the records decide how it ends.
    ensures decided { IfSome (S.left source.old) (λ all. length all ≤ limit → result.0 ≢ Played.Memory
        → ¬ Rose (S.faults source.old) (S.faults source.new) → ¬ Rose (K.faults sink.old) (K.faults sink.new) → ¬ Rose (F.faults field) (F.faults result.1)
        → DecidedOver (F.map field) (F.answers field) (F.answers result.1) all result.0) }

    // A fault has its cause, and no count falls.
    ensures read_cause { result.0 ≡ Played.ReadFault → Rose (S.faults source.old) (S.faults source.new) }
    ensures write_cause { result.0 ≡ Played.WriteFault → Rose (K.faults sink.old) (K.faults sink.new) }
    ensures field_cause { result.0 ≡ Played.FieldFault → Rose (F.faults field) (F.faults result.1) }
    ensures read_later { S.faults source.old ≤ S.faults source.new }
    ensures write_later { K.faults sink.old ≤ K.faults sink.new }
    ensures field_later { F.faults field ≤ F.faults result.1 }
{
    let mut player = GroupPlayer {
        alloc,
        world: World::new(alloc),
        field,
        records: 0,
    };
    let ended = play_source(alloc, &mut player, source, sink);
    let GroupPlayer {
        alloc: _alloc,
        world: _world,
        field,
        records: _records,
    } = player;
    (played_by(ended), field)
}
