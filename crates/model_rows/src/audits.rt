//! What an auditor makes of traces.

ghost use Rattle.std.specs.Prelude.{◌≡◌, true, false, [], ◌∷◌, ◌++◌, codes, None, Some};
ghost use Rattle.values.specs.declared.event.Event.TheVariants as event;
ghost use Rattle.values.specs.declared.message.Reply.TheVariants.{Applied};
ghost use Rattle.values.specs.declared.message.Response.TheVariants.{Backup};
ghost use Rattle.trace_model.specs.Audit.{Audits, Accepts, Refuses, WrongGrammar, WrongCommit, WrongOutcome, WrongLog, WrongRollbacks, WrongEnd};
ghost use Rattle.trace_model.specs.TraceLines.{EventLine, Commit, Outcome, Members, Refused, LogEnd, Rollbacks, End, Stopped, Says};
ghost use Rattle.model_rows.specs.Shown.{bytes_of};
ghost use Rattle.model_rows.specs.Rows.OneVoterOneBackup as row;
ghost use Rattle.model_rows.specs.Grammar.{with_wide_status, with_odd_request};
ghost use Rattle.model_rows.specs.Audits.{judged, begins, backed_up, ends, noop_of, client};

use client_msgs::responses_are_read_again;
use trace_model::fields_are_plain;

/// A trace that holds together is accepted, also one that was stopped.
pub fn accepted()
    ensures whole { judged (begins ++ backed_up ∷ ends 2) ≡ Accepts 10 }
    ensures stopped { judged (Stopped ∷ []) ≡ Accepts 1 }
    ensures refused_roll { judged (begins ++ (EventLine 4 (event.Roll 1 7) ∷ Refused ∷ ends 2)) ≡ Accepts 11 }
    ensures empty { judged (ends 0) ≡ Accepts 3 }
{}

/// Any other is refused at the first line up to which it does not hold together.
pub fn refused()
    ensures twice { judged (begins ++ (Commit 1 2 (noop_of 2) ∷ ends 2)) ≡ Refuses 7 WrongCommit }
    ensures gap { judged (begins ++ (Commit 1 4 (noop_of 2) ∷ ends 2)) ≡ Refuses 7 WrongCommit }
    ensures response { judged (begins ++ (Outcome client 1 2 (Applied (Backup 2)) ∷ ends 2)) ≡ Refuses 7 WrongOutcome }
    ensures number { judged (begins ++ (Outcome client 2 2 (Applied (Backup 1)) ∷ ends 2)) ≡ Refuses 7 WrongOutcome }
    ensures log { judged (begins ++ ends 3) ≡ Refuses 7 WrongLog }
    ensures rolled { judged (begins ++ (EventLine 4 (event.Roll 1 0) ∷ ends 2)) ≡ Refuses 9 WrongRollbacks }
    ensures no_end { judged begins ≡ Refuses 7 WrongEnd }
    ensures late { judged (ends 0 ++ (Stopped ∷ [])) ≡ Refuses 4 WrongEnd }
    ensures second_begin { judged (begins ++ (EventLine 4 (event.Begin 0 100 (1 ∷ [])) ∷ [])) ≡ Refuses 7 WrongGrammar }
    ensures no_begin { judged (Members 0 (1 ∷ []) ∷ []) ≡ Refuses 1 WrongGrammar }
{}

/// A trace is accepted by its bytes. With a response or a request whose values are out of their ranges it is no grammar:
/// the bytes after `done` are those of a status of 2^32 + 1, and a digit of a request is a NUL, which would be printed of a
/// "byte" of 300. It only names the laws below.
pub fn grammar()
    ensures whole { Audits (bytes_of row.trace) (Accepts 10) }
    ensures wide_status { Audits with_wide_status (Refuses 7 WrongGrammar) }
    ensures odd_request { Audits with_odd_request (Refuses 6 WrongGrammar) }
{
    fields_are_plain();
    responses_are_read_again();
}

/// What some lines say.
pub fn lines()
    ensures commit { Says (codes "commit,7,3,2,noop") (Commit 7 3 (noop_of 2)) }
    ensures outcome { Says (codes "answer,1,7,00000000000000000000000000000001,1,outcome,2,done,0a020801") (Outcome client 1 2 (Applied (Backup 1))) }
    ensures roll { Says (codes "event,9,roll,2,1") (EventLine 9 (event.Roll 2 1)) }
    ensures closing { Says (codes "rollbacks,exceeded") (Rollbacks false) }
{}
