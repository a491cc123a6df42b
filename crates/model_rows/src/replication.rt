//! Runs of replication: leaders, promises, losses, rollbacks. Each function is the law that the definitions give this trace.

ghost use Rattle.model_rows.specs.Plays.{Plays};
ghost use Rattle.model_rows.specs.Rows.OneVoterOneBackup;
ghost use Rattle.model_rows.specs.Rows.OtherSpellingSameCommit;
ghost use Rattle.model_rows.specs.Rows.FiveVotersMarginOne;
ghost use Rattle.model_rows.specs.Rows.RepeatLossAndCatchUp;
ghost use Rattle.model_rows.specs.Rows.UndecidedThenAgain;
ghost use Rattle.model_rows.specs.Rows.ElectionsWithoutHalt;
ghost use Rattle.model_rows.specs.Rows.OldVotesHaltTwo;
ghost use Rattle.model_rows.specs.Rows.BeyondTheBound;

/// One voter takes a backup: it is committed and answered in its own event.
pub fn one_voter_one_backup()
    ensures { Plays OneVoterOneBackup.schedule OneVoterOneBackup.trace }
{}

/// The same request in another spelling, with an unknown field, is committed by its canonical bytes.
pub fn other_spelling_same_commit()
    ensures { Plays OtherSpellingSameCommit.schedule OtherSpellingSameCommit.trace }
{}

/// Of five voters with margin one, four promises commit.
pub fn five_voters_margin_one()
    ensures { Plays FiveVotersMarginOne.schedule FiveVotersMarginOne.trace }
{}

/// One message is delivered twice, one is lost, and the replica that missed it catches up.
pub fn repeat_loss_and_catch_up()
    ensures { Plays RepeatLossAndCatchUp.schedule RepeatLossAndCatchUp.trace }
{}

/// A request whose entry was replaced is undecided, and is asked again of the new leader.
pub fn undecided_then_again()
    ensures { Plays UndecidedThenAgain.schedule UndecidedThenAgain.trace }
{}

/// Leaders change, and nobody halts.
pub fn elections_without_halt()
    ensures { Plays ElectionsWithoutHalt.schedule ElectionsWithoutHalt.trace }
{}

/// A replica that was rolled back leads by old votes: two others halt, and nothing promised is replaced.
pub fn old_votes_halt_two()
    ensures { Plays OldVotesHaltTwo.schedule OldVotesHaltTwo.trace }
{}

/// Beyond the rollback bound two different entries are committed at one index.
pub fn beyond_the_bound()
    ensures { Plays BeyondTheBound.schedule BeyondTheBound.trace }
{}
