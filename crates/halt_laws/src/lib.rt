//! What holds of every run of the group's model without a rollback.
//!
//! Each law is the contract of a function that only names other laws. A run may lose, repeat and reorder messages, stop
//! replicas, start learners and send them tables, change the voters and the margin, and save states.
#![tactic(auto)]

ghost use Rattle.group_model.specs.Halts.{NoHalt};

use path_laws::laws_by_single_changes;

/// The law that in every run without a rollback and without a collision at most one replica leads in a term, paths
/// with entries of one term at one index are equal up to there, who leads holds what had enough marks in an earlier
/// term, what is promised lies on a path that had, and no replica halts. It only names the laws of the generous machine.
pub fn no_halt()
    ensures { NoHalt }
{
    laws_by_single_changes();
}

ghost use Rattle.halt_laws.specs.Unchanged.{NoHaltUnchanged};

/// The same laws where no change of the voters or of the margin is ever accepted. It only names those laws.
pub fn no_halt_unchanged()
    ensures { NoHaltUnchanged }
{
    no_halt();
}

ghost use Rattle.halt_laws.specs.Whole.{NothingCollides};

/// Under a link that keeps all that it is given no run has a collision, so the premise can be met. It does nothing.
pub fn nothing_collides()
    ensures { NothingCollides }
{}

ghost use Rattle.std.specs.Prelude.{◌≡◌, [], ◌∷◌};
ghost use Rattle.group_model.specs.Log.{NoCollision};
ghost use Rattle.group_model.specs.Halts.{HaltLaws};
ghost use Rattle.halt_laws.specs.Whole.{whole_link};
ghost use Rattle.halt_laws.specs.Succession.{succession, succeeded, leads_told, tables_taken, last_conf};

/// The laws are of something: in a run that meets each premise two replicas lead, a learner takes a table and votes,
/// and voters and margin change. It only names those laws.
pub fn a_succession()
    ensures unrolled { succeeded.rolled ≡ [] }
    ensures apart { NoCollision whole_link succeeded }
    ensures lawful { HaltLaws succeeded }
    ensures leads { leads_told succeeded ≡ 2 ∷ 1 ∷ [] }
    ensures taken { tables_taken succeeded ≡ 1 ∷ [] }
    ensures voters { (last_conf succeeded).voters ≡ 1 ∷ 2 ∷ 4 ∷ [] }
    ensures margin { (last_conf succeeded).margin ≡ 1 }
{
    no_halt();
    nothing_collides();
}

ghost use Rattle.halt_laws.specs.OldVotes.{revoted, halted};

/// The premise is needed: in a run with one rollback, and without a collision, two replicas halt. It only names a law.
pub fn old_votes_halt_two()
    ensures apart { NoCollision whole_link revoted }
    ensures rolled { revoted.rolled ≡ 2 ∷ [] }
    ensures two { halted revoted ≡ 3 ∷ 1 ∷ [] }
    ensures broken { ¬ (HaltLaws revoted) }
{
    nothing_collides();
}
