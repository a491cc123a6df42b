//! A group whose replicas run in a field that was handed in.
ghost use Rattle.std.specs.Prelude.{ℕ, ◌≡◌, ◌≢◌, ◌≤◌, None, IfSome, IsSome, length};
ghost use Rattle.byte_streams.specs.Causes.{Rose};
ghost use Rattle.record_stream.specs.Ends.{limit};
ghost use Rattle.svr2_run.specs.Groups.{GroupDecides, GroupsOver};
ghost use Rattle.svr2_run.specs.Run.{RunsOver};
ghost use Rattle.svr2_run.specs.declared.words.Play.TheVariants.{Replay};

use crate::exit::Status;
use crate::plays::status_played;
use enclave_host::Field;
use group_world::play;
use part_laws::calls_are_named;
use std::alloc::Global;
use svr_base::{Sink, Source};

/// Plays a schedule from the source over the field, writes its trace to the sink, and gives the field back.
pub fn group<S: Source, K: Sink, F: Field>(
    alloc: Global,
    source: &mut S,
    sink: &mut K,
    field: F,
) -> (Status, F)
    requires { IfSome (F.map field) (λ now. (id : ℕ) → now id ≡ None) }
    ensures groups { IfSome (S.left source.old) (λ all.
        GroupsOver (F.map field) (F.map result.1) (F.answers field) (F.answers result.1) all (S.left source.new) (K.taken sink.old) (K.taken sink.new) result.0) }
    ensures decided { IfSome (S.left source.old) (λ all. length all ≤ limit
        → ¬ Rose (S.faults source.old) (S.faults source.new) → ¬ Rose (K.faults sink.old) (K.faults sink.new) → ¬ Rose (F.faults field) (F.faults result.1)
        → result.0 ≢ Status.Memory → GroupDecides (F.map field) (F.answers field) (F.answers result.1) all result.0) }
    ensures replays { IsSome (F.map field) → result.0 ≢ Status.FieldFault → IfSome (S.left source.old) (λ all.
        RunsOver Replay all (S.left source.new) (K.taken sink.old) (K.taken sink.new) result.0) }
    ensures never_usage { result.0 ≢ Status.Usage }
    ensures never_refused { result.0 ≢ Status.Refused }
    ensures read_cause { result.0 ≡ Status.ReadFault → Rose (S.faults source.old) (S.faults source.new) }
    ensures write_cause { result.0 ≡ Status.WriteFault → Rose (K.faults sink.old) (K.faults sink.new) }
    ensures field_cause { result.0 ≡ Status.FieldFault → Rose (F.faults field) (F.faults result.1) }
    ensures read_later { S.faults source.old ≤ S.faults source.new }
    ensures write_later { K.faults sink.old ≤ K.faults sink.new }
    ensures field_later { F.faults field ≤ F.faults result.1 }
{
    calls_are_named();
    let (played, field) = play(alloc, source, sink, field);
    (status_played(played), field)
}
