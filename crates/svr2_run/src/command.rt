//! The top call.
ghost use Rattle.std.specs.Prelude.{◌≡◌, ◌≢◌, ◌≤◌, ◌⊎◌, ℕ, [], List, length, map, string_bytes, None, Some, IfSome, IsSome, IsTrue};
ghost use Rattle.byte_streams.specs.Causes.{Rose};
ghost use Rattle.record_cutting.specs.Lines.{records_of};
ghost use Rattle.record_stream.specs.Ends.{limit};
ghost use Rattle.values.specs.declared.limits.TheConstants.{MAX_SOURCE};
ghost use Rattle.values.specs.declared.ids.ClientId.{ClientId};
ghost use Rattle.values.specs.declared.entry.Point.{Point};
ghost use Rattle.replica_model.specs.Linked.{sha_link};
ghost use Rattle.replica_model.specs.Replica.{Named};
ghost use Rattle.group_model.specs.Group.{is_within};
ghost use Rattle.group_model.specs.Halts.{HaltLaws};
ghost use Rattle.group_model.specs.Laws.{ActsOnce, OneLogLaws};
ghost use Rattle.group_model.specs.Log.{NoCollision, WithinBound, log_of};
ghost use Rattle.group_model.specs.Reports.{IsOnlySaid, ReportsHold};
ghost use Rattle.trace_audit.specs.declared.source.TheConstants.{MAX_TRACE};
ghost use Rattle.trace_model.specs.Audit.{Accepts, Audits};
ghost use Rattle.trace_model.specs.Claims.{drill_world};
ghost use Rattle.trace_model.specs.Driven.{driven_world};
ghost use Rattle.trace_model.specs.Schedules.{trace_of, world_of};
ghost use Rattle.trace_model.specs.Session.{IsMapFor};
ghost use Rattle.trace_model.specs.Summary.{halts};
ghost use Rattle.headline_laws.specs.HaltLines.{IsWithoutHalt};
ghost use Rattle.enclave_host.specs.Words.{wording};
ghost use Rattle.svr2_run.specs.Audits.{AuditsOver, Decides};
ghost use Rattle.svr2_run.specs.Drills.{DrillsTo};
ghost use Rattle.svr2_run.specs.Groups.{GroupDecides, GroupsOver};
ghost use Rattle.svr2_run.specs.Run.{Holds, IsNoFrame, RunsOver, status_in};
ghost use Rattle.svr2_run.specs.Words.{command_of, play_of, tagging_of};
ghost use Rattle.svr2_run.specs.Sessions.{ServesOver};

use crate::audit::audit;
use crate::drill::drill;
use crate::exit::Status;
use crate::group::group;
use crate::plays::{drive, replay, table};
use crate::sessions::{serve, tagged};
use crate::words::{Command, Play, read_words};
use audit_laws::traces_are_accepted;
use enclave_host::Field;
use headline_laws::{drill_holds, headline, no_halt_line, printed_headline, schedule_reports};
use range_laws::own_link_gives_hashes;
use std::alloc::Global;
use svr_base::{Memory, Sink, Source};

/// Does what the words say: `replay` plays a schedule from the source, by a group in memory, and writes its trace to the
/// sink; `drive` does so too, and carries each accepted want to its report; `group` plays it by a group whose replicas run in
/// the field; `table` applies the requests of the source's records to one record table and writes what comes of each; `serve`
/// serves one enclave over the frames of the source, and `tagged` does so over frames that are tagged; `audit` audits the trace
/// that the source holds and writes the verdict; `drill` plays the schedule of a seed and writes what it came to.
///
/// The words are the command line without the program's own name. The field comes back with the status. Want of memory is the
/// one free answer.
pub fn run<S: Source, K: Sink, F: Field>(
    alloc: Global,
    words: &[String],
    source: &mut S,
    sink: &mut K,
    field: F,
) -> (Status, F)
    // In a field that tells who runs, nobody does.
    requires { IfSome (F.map field) (λ now. (id : ℕ) → now id ≡ None) }

    // Usage comes only where the words are no command, and there nothing else but want of memory does. Nothing is read
    // or written then.
    ensures usage { result.0 ≡ Status.Usage → command_of (map string_bytes words.now) ≡ None }
    ensures no_command { command_of (map string_bytes words.now) ≡ None → (result.0 ≡ Status.Usage) ⊎ (result.0 ≡ Status.Memory) }
    ensures source_left { command_of (map string_bytes words.now) ≡ None → source.new ≡ source.old }
    ensures sink_left { command_of (map string_bytes words.now) ≡ None → sink.new ≡ sink.old }

    // Where the source tells that it holds these bytes, and the sink what it gained: at Done the whole text of the command,
    // and at Schedule a text that ends with the line of the record that means nothing. At ReadFault exactly the lines of the
    // records that stand whole in the bytes read; at Limit the same of as many bytes as are played, or a text that ends with
    // the line of another limit. At WriteFault and Memory first bytes of these lines, and of the closing ones where all was
    // read. What a group writes is said where the chain's link does not collide in the run of these records; Frame comes only
    // where it does.
    ensures plays { IfSome (play_of (map string_bytes words.now)) (λ play. IfSome (S.left source.old) (λ all.
        RunsOver play all (S.left source.new) (K.taken sink.old) (K.taken sink.new) result.0)) }

    // With the words of a command, no fault and not too many bytes, the records decide.
    ensures decided { IfSome (play_of (map string_bytes words.now)) (λ play. IfSome (S.left source.old) (λ all.
        length all ≤ limit → Holds play (records_of all)
        → ¬ Rose (S.faults source.old) (S.faults source.new) → ¬ Rose (K.faults sink.old) (K.faults sink.new)
        → result.0 ≢ Status.Memory → result.0 ≡ status_in play all)) }

    // Whatever the bytes of a schedule: where its run keeps the rollback bound, or its closing lines say so, and without a
    // collision there is one log, and each outcome is the one table's answer at its place in it.
    ensures one_log { (bytes : List ℕ) → WithinBound (world_of sha_link bytes) → NoCollision sha_link (world_of sha_link bytes)
        → OneLogLaws (world_of sha_link bytes) }
    ensures printed { (bytes : List ℕ) → IsTrue (is_within (world_of sha_link bytes)) → NoCollision sha_link (world_of sha_link bytes)
        → OneLogLaws (world_of sha_link bytes) × ((world_of sha_link bytes).committed ≡ length (log_of (world_of sha_link bytes))) }
    // Within the bound, what a client reports that no ask names follows that log.
    ensures reports { (bytes : List ℕ) → WithinBound (world_of sha_link bytes) → NoCollision sha_link (world_of sha_link bytes)
        → (client : ClientId) → IsOnlySaid (world_of sha_link bytes) client
        → ReportsHold (world_of sha_link bytes) client (world_of sha_link bytes).hearings }
    // Where no roll was accepted, nobody halts, and no line of the trace tells of a halt.
    ensures no_halt { (bytes : List ℕ) → (world_of sha_link bytes).rolled ≡ [] → NoCollision sha_link (world_of sha_link bytes)
        → HaltLaws (world_of sha_link bytes) × (halts (world_of sha_link bytes) ≡ 0) × IsWithoutHalt (trace_of sha_link bytes) }

    // The same of every driven schedule, in which each number of a client acts at most once, once the client is known.
    ensures driven_one_log { (bytes : List ℕ) → WithinBound (driven_world sha_link bytes) → NoCollision sha_link (driven_world sha_link bytes)
        → OneLogLaws (driven_world sha_link bytes) }
    ensures acts_once { (bytes : List ℕ) → WithinBound (driven_world sha_link bytes) → NoCollision sha_link (driven_world sha_link bytes)
        → ActsOnce (driven_world sha_link bytes) }
    ensures driven_printed { (bytes : List ℕ) → IsTrue (is_within (driven_world sha_link bytes)) → NoCollision sha_link (driven_world sha_link bytes)
        → OneLogLaws (driven_world sha_link bytes) × ((driven_world sha_link bytes).committed ≡ length (log_of (driven_world sha_link bytes))) }
    ensures driven_reports { (bytes : List ℕ) → WithinBound (driven_world sha_link bytes) → NoCollision sha_link (driven_world sha_link bytes)
        → (client : ClientId) → IsOnlySaid (driven_world sha_link bytes) client
        → ReportsHold (driven_world sha_link bytes) client (driven_world sha_link bytes).hearings }
    ensures driven_no_halt { (bytes : List ℕ) → (driven_world sha_link bytes).rolled ≡ [] → NoCollision sha_link (driven_world sha_link bytes)
        → HaltLaws (driven_world sha_link bytes) × (halts (driven_world sha_link bytes) ≡ 0) }

    // A group over the field ends as the play of it does. Where the field tells who runs, this is the trace over the model's
    // enclaves, or, where the field failed, the lines of the events before, and at Done the replicas of the model's group run in it;
    // where it tells its answers, the trace from these, which ends at the first that is no batch: Frame comes there alone.
    ensures groups { command_of (map string_bytes words.now) ≡ Some Command.Group → IfSome (S.left source.old) (λ all.
        GroupsOver (F.map field) (F.map result.1) (F.answers field) (F.answers result.1) all (S.left source.new) (K.taken sink.old) (K.taken sink.new) result.0) }
    // Without a fault and not too many bytes, the records decide, with the field's answers where it tells them.
    ensures group_decided { command_of (map string_bytes words.now) ≡ Some Command.Group → IfSome (S.left source.old) (λ all.
        length all ≤ limit
        → ¬ Rose (S.faults source.old) (S.faults source.new) → ¬ Rose (K.faults sink.old) (K.faults sink.new) → ¬ Rose (F.faults field) (F.faults result.1)
        → result.0 ≢ Status.Memory → GroupDecides (F.map field) (F.answers field) (F.answers result.1) all result.0) }
    // Over a field that tells who runs, and that did not fail, it ends as a replay does.
    ensures group_replays { command_of (map string_bytes words.now) ≡ Some Command.Group → IsSome (F.map field) → result.0 ≢ Status.FieldFault
        → IfSome (S.left source.old) (λ all.
        RunsOver Play.Replay all (S.left source.new) (K.taken sink.old) (K.taken sink.new) result.0) }

    // A session ends as its definition has it, by every map from points to paths that is one for the source's bytes: with the
    // answers to all frames, to those before a bad one or before a limit, to those that stand whole in the bytes read, or with
    // first bytes of these; nothing is read past the first frame whose answer was not written whole.
    ensures serves { IfSome (tagging_of (map string_bytes words.now)) (λ tagging. IfSome (S.left source.old) (λ all.
        (names : Point → Named) → IsMapFor wording tagging sha_link names all
        → ServesOver tagging names all (S.left source.new) (K.taken sink.old) (K.taken sink.new) result.0)) }
    ensures schedule_plays { IsSome (tagging_of (map string_bytes words.now)) → result.0 ≢ Status.Schedule }
    ensures frame_serves { IfSome (play_of (map string_bytes words.now)) (λ play. IsNoFrame play result.0) }

    // An audit ends as its definition has it: at Done the trace is accepted and at Refused it is refused, and exactly the line
    // that says so was written. Over a trace that is not too long, and without a fault, the trace decides which. At a refusal the
    // rest was not read. Nothing but an audit answers Refused.
    ensures audits { command_of (map string_bytes words.now) ≡ Some Command.Audit → IfSome (S.left source.old) (λ all.
        AuditsOver all (S.left source.new) (K.taken sink.old) (K.taken sink.new) result.0) }
    ensures trace_decides { command_of (map string_bytes words.now) ≡ Some Command.Audit → IfSome (S.left source.old) (λ all.
        length all ≤ MAX_TRACE
        → ¬ Rose (S.faults source.old) (S.faults source.new) → ¬ Rose (K.faults sink.old) (K.faults sink.new)
        → result.0 ≢ Status.Memory → Decides all result.0) }
    ensures refused_audits { result.0 ≡ Status.Refused → command_of (map string_bytes words.now) ≡ Some Command.Audit }
    ensures audit_alone { command_of (map string_bytes words.now) ≡ Some Command.Audit
        → (result.0 ≢ Status.Schedule) × (result.0 ≢ Status.Frame) }

    // Whatever the bytes of a schedule that may be played: the trace of its run is accepted, where the run keeps the rollback
    // bound and no two different entries of it have one hash, whether it was played to its end or stops before.
    ensures accepts { (bytes : List ℕ) → length bytes ≤ MAX_SOURCE → WithinBound (world_of sha_link bytes)
        → NoCollision sha_link (world_of sha_link bytes)
        → (lines : ℕ) × Audits (trace_of sha_link bytes) (Accepts lines) }

    // A drill reads nothing, and ends as its definition has it: at Done exactly its summary was written, at WriteFault first
    // bytes of it, and for want of memory nothing.
    ensures drills { (seed clients : ℕ) → command_of (map string_bytes words.now) ≡ Some (Command.Drill seed clients)
        → DrillsTo seed clients (K.taken sink.old) (K.taken sink.new) result.0 }
    ensures drill_reads_nothing { (seed clients : ℕ) → command_of (map string_bytes words.now) ≡ Some (Command.Drill seed clients)
        → source.new ≡ source.old }
    // Of the run of every drill: without a collision there is one log, and each outcome is the one table's answer at its
    // place in it; nobody halts.
    ensures drill_one_log { (seed clients : ℕ) → NoCollision sha_link (drill_world sha_link seed clients)
        → OneLogLaws (drill_world sha_link seed clients) × (halts (drill_world sha_link seed clients) ≡ 0) }

    // Nothing but a group asks the field for anything, and FieldFault comes only where it failed.
    ensures field_left { command_of (map string_bytes words.now) ≢ Some Command.Group → result.1 ≡ field }
    ensures field_groups { result.0 ≡ Status.FieldFault → command_of (map string_bytes words.now) ≡ Some Command.Group }
    ensures field_cause { result.0 ≡ Status.FieldFault → Rose (F.faults field) (F.faults result.1) }
    ensures field_later { F.faults field ≤ F.faults result.1 }

    // A fault has its cause, and no count of faults falls.
    ensures read_cause { result.0 ≡ Status.ReadFault → Rose (S.faults source.old) (S.faults source.new) }
    ensures write_cause { result.0 ≡ Status.WriteFault → Rose (K.faults sink.old) (K.faults sink.new) }
    ensures read_later { S.faults source.old ≤ S.faults source.new }
    ensures write_later { K.faults sink.old ≤ K.faults sink.new }
{
    headline();
    printed_headline();
    schedule_reports();
    no_halt_line();
    own_link_gives_hashes();
    traces_are_accepted();
    drill_holds();
    match read_words(alloc, words) {
        Ok(Some(Command::Play(Play::Replay))) => (replay(alloc, source, sink), field),
        Ok(Some(Command::Play(Play::Drive))) => (drive(alloc, source, sink), field),
        Ok(Some(Command::Play(Play::Table { limit }))) => {
            (table(alloc, limit, source, sink), field)
        }
        Ok(Some(Command::Group)) => group(alloc, source, sink, field),
        Ok(Some(Command::Serve)) => (serve(alloc, source, sink), field),
        Ok(Some(Command::Tagged { key })) => (tagged(alloc, key, source, sink), field),
        Ok(Some(Command::Audit)) => (audit(alloc, source, sink), field),
        Ok(Some(Command::Drill { seed, clients })) => (drill(alloc, seed, clients, sink), field),
        Ok(None) => (Status::Usage, field),
        Err(Memory) => (Status::Memory, field),
    }
}
