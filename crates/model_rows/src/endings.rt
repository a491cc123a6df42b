//! Refusals, and schedules that end early. Each function is the law that the definitions give this trace.

ghost use Rattle.model_rows.specs.Plays.{Plays};
ghost use Rattle.model_rows.specs.Rows.Refusals;
ghost use Rattle.model_rows.specs.Rows.TooFewVoters;
ghost use Rattle.model_rows.specs.Rows.NoBegin;
ghost use Rattle.model_rows.specs.Rows.OneReplicaTooMany;
ghost use Rattle.model_rows.specs.Rows.EmptySource;

/// A refusal of each change, of a roll, a delivery, a tick and a start.
pub fn refusals()
    ensures { Plays Refusals.schedule Refusals.trace }
{}

/// A begin record with too few voters for its margin.
pub fn too_few_voters()
    ensures { Plays TooFewVoters.schedule TooFewVoters.trace }
{}

/// An event before the begin record.
pub fn no_begin()
    ensures { Plays NoBegin.schedule NoBegin.trace }
{}

/// One replica more than a run may have.
pub fn one_replica_too_many()
    ensures { Plays OneReplicaTooMany.schedule OneReplicaTooMany.trace }
{}

/// No record at all.
pub fn empty_source()
    ensures { Plays EmptySource.schedule EmptySource.trace }
{}
