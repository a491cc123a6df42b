//! What the outcomes of a run say of its one log.
//!
//! Within the rollback bound a client's outcome is the one table's answer at its request's place in the log, and the
//! laws of the record table hold of that log: numbers, guesses, and what a secret cost.
#![tactic(auto)]

ghost use Rattle.group_model.specs.Due.{TicketsAnswered};
ghost use Rattle.group_model.specs.Laws.{OneLog};

use log_laws::one_log;
use record_rules::{data_is_earned, guesses_end, numbers_rise};

/// The law that in every run within the rollback bound and without a collision there is one log, each outcome is that
/// log's reply at a place where its request stands, and the log's places keep the laws of the record table. It only
/// names those laws.
pub fn one_log_laws()
    ensures { OneLog }
{
    one_log();
    numbers_rise();
    guesses_end();
    data_is_earned();
}

/// The law that in every run, whatever is rolled back, a call that moves a replica's committed index past the index of a
/// ticket that it holds answers that ticket: by its outcome, with the reply of its place, or, where the call first replaced
/// its entry, by saying so. A roll is no such call.
pub fn tickets_are_answered()
    ensures { TicketsAnswered }
{}
