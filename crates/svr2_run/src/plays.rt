//! What plays the records of the source.
ghost use Rattle.std.specs.Prelude.{◌≡◌, ◌≢◌, ◌≤◌, IfSome, length};
ghost use Rattle.byte_streams.specs.Causes.{Rose};
ghost use Rattle.record_cutting.specs.Lines.{records_of};
ghost use Rattle.record_stream.specs.Ends.{limit};
ghost use Rattle.values.specs.declared.limits.TheConstants.{MOST_ROWS};
ghost use Rattle.svr2_run.specs.Run.{Holds, RunsOver, status_in};
ghost use Rattle.svr2_run.specs.Run as spec;

use crate::exit::Status;
use crate::words::Play;
use drive_command::DrivePlayer;
use group_world::{Halt, LocalField, Played, play};
use part_laws::calls_are_named;
use record_stream::{Ended, play_source};
use schedule_text::Stopped;
use std::alloc::Global;
use svr_base::{Sink, Source};
use table_command::TablePlayer;

/// What the reason for which a driven schedule is not played to its end means.
fn status_halted(halt: Halt) -> Status
    ensures { result ≡ spec.status_halted halt }
{
    match halt {
        Halt::Record { .. } => Status::Schedule,
        Halt::Limit(_) => Status::Limit,
        Halt::Frame(_) => Status::Frame,
    }
}

/// How the play of a driven schedule ended, as the status of a run.
fn status_driven(ended: Ended<Halt>) -> Status
    ensures { result ≡ spec.status_driven ended }
{
    match ended {
        Ended::Done => Status::Done,
        Ended::Stopped(halt) => status_halted(halt),
        Ended::Memory => Status::Memory,
        Ended::ReadFault => Status::ReadFault,
        Ended::WriteFault => Status::WriteFault,
        Ended::Limit => Status::Limit,
        Ended::Failed => Status::FieldFault,
    }
}

fn status_of(ended: Ended<Stopped>) -> Status
    ensures { result ≡ spec.status_of ended }
{
    match ended {
        Ended::Done => Status::Done,
        Ended::Stopped(Stopped::AtRecord) => Status::Schedule,
        Ended::Stopped(Stopped::AtLimit) => Status::Limit,
        Ended::Memory => Status::Memory,
        Ended::ReadFault => Status::ReadFault,
        Ended::WriteFault => Status::WriteFault,
        Ended::Limit => Status::Limit,
        Ended::Failed => Status::FieldFault,
    }
}

/// How the play of a group ended, as the status of a run.
pub fn status_played(played: Played) -> Status
    ensures { result ≡ spec.status_played played }
{
    match played {
        Played::Done => Status::Done,
        Played::Memory => Status::Memory,
        Played::Schedule { .. } => Status::Schedule,
        Played::ReadFault => Status::ReadFault,
        Played::WriteFault => Status::WriteFault,
        Played::FieldFault => Status::FieldFault,
        Played::Limit(_) => Status::Limit,
        Played::Frame(_) => Status::Frame,
    }
}

/// Plays a schedule from the source by a group in memory, and writes its trace to the sink.
pub fn replay<S: Source, K: Sink>(alloc: Global, source: &mut S, sink: &mut K) -> Status
    ensures runs { IfSome (S.left source.old) (λ all. RunsOver Play.Replay all (S.left source.new) (K.taken sink.old) (K.taken sink.new) result) }
    ensures decided { IfSome (S.left source.old) (λ all. length all ≤ limit → Holds Play.Replay (records_of all)
        → ¬ Rose (S.faults source.old) (S.faults source.new) → ¬ Rose (K.faults sink.old) (K.faults sink.new)
        → result ≢ Status.Memory → result ≡ status_in Play.Replay all) }
    ensures never_usage { result ≢ Status.Usage }
    ensures never_field { result ≢ Status.FieldFault }
    ensures never_refused { result ≢ Status.Refused }
    ensures read_cause { result ≡ Status.ReadFault → Rose (S.faults source.old) (S.faults source.new) }
    ensures write_cause { result ≡ Status.WriteFault → Rose (K.faults sink.old) (K.faults sink.new) }
    ensures read_later { S.faults source.old ≤ S.faults source.new }
    ensures write_later { K.faults sink.old ≤ K.faults sink.new }
{
    calls_are_named();
    let (played, _field) = play(alloc, source, sink, LocalField::new(alloc));
    status_played(played)
}

/// Plays a schedule from the source by a group in memory, of which each accepted want is carried to its report, and writes what
/// comes of it to the sink.
pub fn drive<S: Source, K: Sink>(alloc: Global, source: &mut S, sink: &mut K) -> Status
    ensures runs { IfSome (S.left source.old) (λ all. RunsOver Play.Drive all (S.left source.new) (K.taken sink.old) (K.taken sink.new) result) }
    ensures decided { IfSome (S.left source.old) (λ all. length all ≤ limit → Holds Play.Drive (records_of all)
        → ¬ Rose (S.faults source.old) (S.faults source.new) → ¬ Rose (K.faults sink.old) (K.faults sink.new)
        → result ≢ Status.Memory → result ≡ status_in Play.Drive all) }
    ensures never_usage { result ≢ Status.Usage }
    ensures never_field { result ≢ Status.FieldFault }
    ensures never_refused { result ≢ Status.Refused }
    ensures read_cause { result ≡ Status.ReadFault → Rose (S.faults source.old) (S.faults source.new) }
    ensures write_cause { result ≡ Status.WriteFault → Rose (K.faults sink.old) (K.faults sink.new) }
    ensures read_later { S.faults source.old ≤ S.faults source.new }
    ensures write_later { K.faults sink.old ≤ K.faults sink.new }
{
    calls_are_named();
    let mut player = DrivePlayer::new(alloc);
    status_driven(play_source(alloc, &mut player, source, sink))
}

/// Applies the requests of the source's records to one table, and writes what comes of them to the sink.
pub fn table<S: Source, K: Sink>(alloc: Global, rows: u32, source: &mut S, sink: &mut K) -> Status
    requires least { 1 ≤ rows }
    requires most { rows ≤ MOST_ROWS }
    ensures runs { IfSome (S.left source.old) (λ all. RunsOver (Play.Table rows) all (S.left source.new) (K.taken sink.old) (K.taken sink.new) result) }
    ensures decided { IfSome (S.left source.old) (λ all. length all ≤ limit → Holds (Play.Table rows) (records_of all)
        → ¬ Rose (S.faults source.old) (S.faults source.new) → ¬ Rose (K.faults sink.old) (K.faults sink.new)
        → result ≢ Status.Memory → result ≡ status_in (Play.Table rows) all) }
    ensures never_usage { result ≢ Status.Usage }
    ensures never_field { result ≢ Status.FieldFault }
    ensures never_refused { result ≢ Status.Refused }
    ensures never_frame { result ≢ Status.Frame }
    ensures read_cause { result ≡ Status.ReadFault → Rose (S.faults source.old) (S.faults source.new) }
    ensures write_cause { result ≡ Status.WriteFault → Rose (K.faults sink.old) (K.faults sink.new) }
    ensures read_later { S.faults source.old ≤ S.faults source.new }
    ensures write_later { K.faults sink.old ≤ K.faults sink.new }
{
    let mut player = TablePlayer::new(alloc, rows);
    status_of(play_source(alloc, &mut player, source, sink))
}
