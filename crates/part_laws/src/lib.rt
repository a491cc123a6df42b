//! What holds of the table parts that a run hands out: without a collision one map from points to paths serves them all.
#![tactic(auto)]

ghost use Rattle.trace_model.specs.Session.{Wording};
ghost use Rattle.trace_model.specs.Claims.{FramesHaveAMap, PartsHaveAMap};
ghost use Rattle.part_laws.specs.Named.{CallsAreNamed, DrivenCallsAreNamed, PlayedCallsAreNamed, ScheduleCallsAreNamed};

/// The law that without a collision all parts that a run hands to learners that hold nothing have one map from points to
/// paths.
pub fn parts_have_a_map()
    ensures { PartsHaveAMap }
{}

/// The law that without a collision the frames that a run hands to each of its enclaves, tagged or not, have a map such
/// as a session of them needs, whatever the words of the frames.
pub fn frames_have_a_map<E>()
    ensures { (wording : Wording E) → FramesHaveAMap wording }
{}

/// The law that without a collision a learner that holds nothing is handed true parts alone, and of the table at one point
/// later parts of the path of those before them: in every call of a run, and of the enclaves as the records of a schedule
/// leave them, whether clients are driven or not, where a limit may have ended the text within an event.
pub fn calls_are_named()
    ensures runs { CallsAreNamed }
    ensures played { PlayedCallsAreNamed }
    ensures schedules { ScheduleCallsAreNamed }
    ensures driven { DrivenCallsAreNamed }
{}
