//! What an auditor accepts: every trace that a schedule's bytes play, within the rollback bound and without a collision.
#![tactic(auto)]

ghost use Rattle.trace_model.specs.Claims.{TraceIsAccepted};

use headline_laws::schedules_are_runs;
use log_laws::one_log;

/// The law that the trace of a schedule's bytes is accepted by the auditor, whether it was played to its end or stops at
/// a bad record or at a limit: of every source that may be played, over every link function that gives hashes of 32
/// bytes, where the run is within the rollback bound and has no collision. It only names the laws below.
pub fn traces_are_accepted()
    ensures { TraceIsAccepted }
{
    schedules_are_runs();
    one_log();
}
