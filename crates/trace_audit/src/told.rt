//! A whole line is read, and told to the auditor.
ghost use Rattle.std.specs.Prelude.{◌∷◌, ◌++◌, []};
ghost use Rattle.trace_model.specs.Audit as model;
ghost use Rattle.trace_audit.specs.Stands.{Stands};
ghost use Rattle.trace_audit.specs.Taking.{IsTold};

use crate::audit::{Audit, AuditError, Why};
use std::alloc::Global;
use trace_lines::{LineError, read_line};

/// Tells the auditor a line, which comes without its line feed.
pub(crate) fn tell(alloc: Global, audit: &mut Audit, line: &[u8]) -> Result<(), AuditError>
    ensures { (state : model.Audit) → Stands audit.old state → IsTold result state (line.now ++ 10 ∷ []) audit.new }
{
    match read_line(alloc, line) {
        Ok(said) => audit.line(said),
        Err(LineError::Grammar) => Err(AuditError::Wrong(Why::Grammar)),
        Err(LineError::Memory) => Err(AuditError::Memory),
    }
}
