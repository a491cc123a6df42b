//! The traces of schedules and sessions, what an auditor accepts, and what is claimed of them. Definitions, and
//! one law of them.
#![tactic(auto)]

ghost use Rattle.trace_model.specs.TraceLines.{FieldsArePlain};

/// The law that no field of a trace's line holds a comma or a line feed.
pub fn fields_are_plain()
    ensures { FieldsArePlain }
{}
