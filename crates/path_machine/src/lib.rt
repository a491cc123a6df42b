//! A generous machine of replicas, where nothing is rolled back, and the statements of its laws.
//!
//! The machine has replicas with whole paths over a network that loses, repeats and reorders. It may do at any time
//! what a replica's step does at some, so each call of a replica is a list of its moves. Each law is the contract of a
//! function that does nothing.
#![tactic(auto)]

ghost use Rattle.path_machine.specs.Changes.{Overlaps, is_single_change};

/// The law that quorums of two configurations that differ by one voter, whatever their margins, share a voter. It does
/// nothing.
pub fn single_changes_overlap()
    ensures { Overlaps is_single_change }
{}

ghost use Rattle.std.specs.Prelude.{◌≡◌, IsSomeAnd, IsTrue, length};
ghost use Rattle.path_machine.specs.Changes.{any_change};
ghost use Rattle.path_machine.specs.Jump.{after_jump, first_three};
ghost use Rattle.path_machine.specs.Laws.{MachineLaws};

/// Where all voters may be replaced at once a replica can halt at an entry that it promised. It does nothing.
pub fn a_jump_halts()
    ensures promised { IsSomeAnd (after_jump.nodes 1) (λ s. s.promised ≡ 3) }
    ensures halts { IsSomeAnd (after_jump.nodes 1) (λ s. IsTrue s.halted) }
    ensures broken { ¬ (MachineLaws first_three any_change after_jump) }
{}

ghost use Rattle.path_machine.specs.Node.{is_leader};
ghost use Rattle.path_machine.specs.Worked.{after_succession};

/// The machine does elect, choose, hand tables over, admit and remove: a run after which a replica leads that was a
/// learner, with what was chosen before it led. It does nothing.
pub fn a_learner_comes_to_lead()
    ensures leads { IsSomeAnd (after_succession.nodes 2) (λ s. IsTrue (is_leader s.role)) }
    ensures term { IsSomeAnd (after_succession.nodes 2) (λ s. s.term ≡ 2) }
    ensures entries { IsSomeAnd (after_succession.nodes 2) (λ s. length s.path ≡ 4) }
    ensures promised { IsSomeAnd (after_succession.nodes 2) (λ s. s.promised ≡ 2) }
    ensures chosen { length after_succession.history.chosen ≡ 3 }
{}
