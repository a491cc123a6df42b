//! The audit of a trace: its verdict is one line.
ghost use Rattle.std.specs.Prelude.{◌≡◌, ◌≢◌, ◌≤◌, IfOk, IfSome, length};
ghost use Rattle.byte_streams.specs.Causes.{Rose};
ghost use Rattle.trace_audit.specs.Stands.{why_of};
ghost use Rattle.trace_audit.specs.declared.source.TheConstants.{MAX_TRACE};
ghost use Rattle.trace_model.specs.Audit.{Accepts, Refuses};
ghost use Rattle.svr2_run.specs.Audits.{AuditsOver, Decides, reason_word, verdict_line};

use crate::exit::Status;
use crate::tell::tell;
use schedule_text::push_number;
use std::alloc::Global;
use svr_base::{Memory, Sink, Source};
use trace_audit::{Audited, Why, audit_source};

/// The word of a reason.
fn reason_word(why: Why) -> &'static str
    ensures { result.now ≡ reason_word (why_of why) }
{
    match why {
        Why::Grammar => "grammar",
        Why::Commit => "commit",
        Why::Outcome => "outcome",
        Why::Log => "log",
        Why::Rollbacks => "rollbacks",
        Why::End => "end",
    }
}

/// The line of a trace that is accepted.
fn accept_line(alloc: Global, lines: u64) -> Result<Vec<u8>, Memory>
    ensures { IfOk result (λ line. line.items ≡ verdict_line (Accepts lines)) }
{
    let mut line = Vec::from_slice(alloc, b"accept,")?;
    push_number(&mut line, lines)?;
    line.push(b'\n')?;
    Ok(line)
}

/// The line of a trace that is refused at the line of this number.
fn refuse_line(alloc: Global, number: u64, why: Why) -> Result<Vec<u8>, Memory>
    ensures { IfOk result (λ line. line.items ≡ verdict_line (Refuses number (why_of why))) }
{
    let mut line = Vec::from_slice(alloc, b"refuse,")?;
    push_number(&mut line, number)?;
    line.push(b',')?;
    line.extend_from_slice(reason_word(why).as_bytes())?;
    line.push(b'\n')?;
    Ok(line)
}

/// Audits the trace that the source holds, and writes the verdict: `accept` and how many lines it has, or `refuse`, the
/// number of the line that is refused, and why.
///
/// At a refusal the rest is not read. A fault of the source, and a byte past the most that are read, end the audit with
/// nothing written. Want of memory is the one free end.
pub fn audit<S: Source, K: Sink>(alloc: Global, source: &mut S, sink: &mut K) -> Status
    ensures audits { IfSome (S.left source.old) (λ all. AuditsOver all (S.left source.new) (K.taken sink.old) (K.taken sink.new) result) }
    ensures decided { IfSome (S.left source.old) (λ all. length all ≤ MAX_TRACE
        → ¬ Rose (S.faults source.old) (S.faults source.new) → ¬ Rose (K.faults sink.old) (K.faults sink.new)
        → result ≢ Status.Memory → Decides all result) }
    ensures audited { (result ≢ Status.Usage) × (result ≢ Status.Schedule) × (result ≢ Status.FieldFault) × (result ≢ Status.Frame) }
    ensures read_cause { result ≡ Status.ReadFault → Rose (S.faults source.old) (S.faults source.new) }
    ensures write_cause { result ≡ Status.WriteFault → Rose (K.faults sink.old) (K.faults sink.new) }
    ensures read_later { S.faults source.old ≤ S.faults source.new }
    ensures write_later { K.faults sink.old ≤ K.faults sink.new }
{
    match audit_source(alloc, source) {
        Audited::Accepts(lines) => tell(sink, accept_line(alloc, lines), Status::Done),
        Audited::Refuses(line, why) => tell(sink, refuse_line(alloc, line, why), Status::Refused),
        Audited::Memory => Status::Memory,
        Audited::ReadFault => Status::ReadFault,
        Audited::Limit => Status::Limit,
    }
}
