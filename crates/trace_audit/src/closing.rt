//! Where a trace stands, and which lines may stand there.
ghost use Rattle.std.specs.Prelude.{◌≡◌};
ghost use Rattle.trace_lines.specs.Meant.{meant};
ghost use Rattle.trace_audit.specs.Stands.{stage_of};
ghost use Rattle.trace_audit.specs.Steps.{takes, stage_after};

use trace_lines::TraceLine;

/// Where a trace stands. It ends with the length of the log, what is said of the rollbacks and an end line, in this order, or
/// with a line that says why it stopped.
#[derive(Clone, Copy, Debug, PartialEq, Eq)]
pub(crate) enum Stage {
    /// Among the events.
    Playing,
    /// After the length of the log.
    AfterLog,
    /// After what is said of the rollbacks.
    AfterRollbacks,
    /// After the last line.
    Over,
}

impl Stage {
    /// Whether a line of this kind may stand here.
    pub(crate) fn takes(self, line: &TraceLine) -> bool
        ensures { result ≡ takes (stage_of self) (meant line.now) }
    {
        match self {
            Stage::Playing => !matches!(line, TraceLine::Rollbacks(_) | TraceLine::End),
            Stage::AfterLog => matches!(line, TraceLine::Rollbacks(_)),
            Stage::AfterRollbacks => matches!(line, TraceLine::End),
            Stage::Over => false,
        }
    }

    /// Where the trace stands after the line.
    pub(crate) fn after(self, line: &TraceLine) -> Stage
        ensures { stage_of result ≡ stage_after (stage_of self) (meant line.now) }
    {
        match line {
            TraceLine::LogEnd(_) => Stage::AfterLog,
            TraceLine::Rollbacks(_) => Stage::AfterRollbacks,
            TraceLine::End | TraceLine::Stopped => Stage::Over,
            _ => self,
        }
    }
}
