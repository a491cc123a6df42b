//! What is claimed of every schedule's bytes: that it plays a run, the laws of runs over it, and what is told of halts
//! where nothing is rolled back.
#![tactic(auto)]

ghost use Rattle.trace_model.specs.Claims.{ScheduleIsARun, DrivenIsARun, Headline, DrivenHeadline, DrillHolds};
ghost use Rattle.headline_laws.specs.Bytes.{BytesTellSchedules, HeadlineInBytes};
ghost use Rattle.headline_laws.specs.HaltLines.{NoHaltLine, DrivenNoHalt};
ghost use Rattle.headline_laws.specs.Printed.{PrintedHeadline, PrintedDriven};
ghost use Rattle.headline_laws.specs.Reported.{ScheduleReports, DrivenReports};

use closing_laws::closing_lines_tell;
use halt_laws::no_halt;
use hash_chain::bytes_tell_inputs;
use outcome_laws::one_log_laws;
use replica_model::bytes_tell_bodies;
use report_laws::reports_follow;

/// The law that the world after a schedule's bytes, driven or not, is that of a run of the events that were played.
pub fn schedules_are_runs()
    ensures played { ScheduleIsARun }
    ensures driven { DrivenIsARun }
{}

/// The headline: of every schedule's bytes, within the rollback bound and without a collision there is one log, each
/// outcome is the one table's answer at its request's place in it, and the log keeps the laws of the table. In a driven
/// schedule each number acts at most once, once its client is known. It only names the laws below.
pub fn headline()
    ensures played { Headline }
    ensures driven { DrivenHeadline }
{
    schedules_are_runs();
    one_log_laws();
}

/// The law that in every schedule's run over the program's own link entries do not collide where the bytes that are
/// hashed do not. It has no other premise, and only names the laws below.
pub fn bytes_tell_schedules()
    ensures { BytesTellSchedules }
{
    bytes_tell_inputs();
    bytes_tell_bodies();
}

/// The headline with the premise that is meant by "SHA-256 does not collide": of every schedule's bytes, within the
/// rollback bound and where no two different byte strings that its run hashes have one SHA-256.
pub fn headline_in_bytes()
    ensures { HeadlineInBytes }
{
    headline();
    bytes_tell_schedules();
}

/// The law that the headline holds of every schedule, driven or not, whose closing lines say that the rollback bound was
/// kept, without a collision; and that they print the length of its log. It only names the laws below.
pub fn printed_headline()
    ensures played { PrintedHeadline }
    ensures driven { PrintedDriven }
{
    schedules_are_runs();
    one_log_laws();
    closing_lines_tell();
}

/// The law that in every such schedule, driven or not, the reports of each client that no ask names follow the log. It
/// only names the laws below.
pub fn schedule_reports()
    ensures played { ScheduleReports }
    ensures driven { DrivenReports }
{
    schedules_are_runs();
    reports_follow();
}

/// The law that of every schedule's bytes whose world had no rollback and no collision the halt laws hold, nobody
/// halted, and no line of the trace tells of a halt; of driven ones too the laws hold, and nobody halted. It only names
/// the laws below.
pub fn no_halt_line()
    ensures played { NoHaltLine }
    ensures driven { DrivenNoHalt }
{
    schedules_are_runs();
    no_halt();
}

/// The law that in every drill without a collision nobody halts and the one-log laws hold. It only names the laws below.
pub fn drill_holds()
    ensures { DrillHolds }
{
    one_log_laws();
    no_halt();
}
