//! What holds of every run of the generous machine of replicas.
//!
//! Each law is the contract of a function that does nothing, or only names other laws.
#![tactic(auto)]

ghost use Rattle.path_machine.specs.Laws.{RunsKeepTheLaws};

/// The law that over every list of moves at most one replica leads in a term, paths with entries of one term at one
/// index are equal up to there, who leads holds what was chosen before, what is promised was chosen, and no replica
/// halts, if the quorums of a configuration and of one that may follow it overlap. It does nothing.
pub fn runs_keep_the_laws()
    ensures { RunsKeepTheLaws }
{}

ghost use Rattle.path_machine.specs.Changes.{is_single_change, no_change};
ghost use Rattle.path_machine.specs.Laws.{LawsOfRuns};

use path_machine::single_changes_overlap;

/// The same laws where one voter at a time is admitted or removed, and margins change at will. It only names those laws.
pub fn laws_by_single_changes()
    ensures { LawsOfRuns is_single_change }
{
    runs_keep_the_laws();
    single_changes_overlap();
}

/// The same laws where the configuration stays as it was. It only names those laws.
pub fn laws_in_one_configuration()
    ensures { LawsOfRuns no_change }
{
    runs_keep_the_laws();
}
