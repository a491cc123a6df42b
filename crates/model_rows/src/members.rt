//! Runs in which voters, learners and the margin change. Each function is the law that the definitions give this trace.

ghost use Rattle.model_rows.specs.Plays.{Plays};
ghost use Rattle.model_rows.specs.Rows.TwoAdditionsUnpromised;
ghost use Rattle.model_rows.specs.Rows.MarginCountsUnderBoth;
ghost use Rattle.model_rows.specs.Rows.MarginZeroExceeds;
ghost use Rattle.model_rows.specs.Rows.LearnerTakesATable;
ghost use Rattle.model_rows.specs.Rows.TableTransferAndRemoval;
ghost use Rattle.model_rows.specs.Rows.SavedWhileSending;

/// With two replicas rolled back between two additions, neither is promised.
pub fn two_additions_unpromised()
    ensures { Plays TwoAdditionsUnpromised.schedule TwoAdditionsUnpromised.trace }
{}

/// A change of the margin counts under the old one and the new one.
pub fn margin_counts_under_both()
    ensures { Plays MarginCountsUnderBoth.schedule MarginCountsUnderBoth.trace }
{}

/// After the margin went to zero, one voter that is rolled back is beyond the bound.
pub fn margin_zero_exceeds()
    ensures { Plays MarginZeroExceeds.schedule MarginZeroExceeds.trace }
{}

/// A learner takes a table with a record in it.
pub fn learner_takes_a_table()
    ensures { Plays LearnerTakesATable.schedule LearnerTakesATable.trace }
{}

/// A learner takes a table in three parts, is admitted and is removed; the last voter stays.
pub fn table_transfer_and_removal()
    ensures { Plays TableTransferAndRemoval.schedule TableTransferAndRemoval.trace }
{}

/// A leader is saved while it sends a table, and sends on after it is rolled back.
pub fn saved_while_sending()
    ensures { Plays SavedWhileSending.schedule SavedWhileSending.trace }
{}
