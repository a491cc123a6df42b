//! What holds of traces and of sessions: a trace against the contents that answer its calls, and the end of a session,
//! whatever the map from points to paths.
#![tactic(auto)]

ghost use Rattle.trace_model.specs.Session.{Wording};
ghost use Rattle.trace_model.specs.Claims.{EndIgnoresTheMap, TextTakesAFront, TraceFromItsContents};

/// The law that a trace is the trace from the contents that its own enclaves give, and takes them all, where batches are
/// read as they were written. Where an event ends the trace, its enclaves have answered that event too.
pub fn trace_from_its_contents()
    ensures { TraceFromItsContents }
{}

/// The law that a trace takes, of whatever contents are given, some at their front: each is a batch, but for one at which
/// the trace ends, which is the last.
pub fn text_takes_a_front()
    ensures { TextTakesAFront }
{}

/// The law that the end of a session does not depend on the map from points to paths, whatever the words of its frames,
/// with content faults of any type.
pub fn end_ignores_the_map<E>()
    ensures { (wording : Wording E) → EndIgnoresTheMap wording }
{}
