//! What the closing lines of a trace tell of its run.
#![tactic(auto)]

ghost use Rattle.trace_model.specs.Claims.{ClosingLinesTell};

/// The law that of every run the greatest committed index that a batch told is the length of the log, and that the bound
/// as it is printed, over the configurations that were told, is the rollback bound. It has no premise.
pub fn closing_lines_tell()
    ensures { ClosingLinesTell }
{}
