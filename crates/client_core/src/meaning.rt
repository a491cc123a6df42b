//! What an answer means to a client that waits for one.
ghost use Rattle.std.specs.Prelude.{◌≡◌, ◌≢◌, ℕ, Some};
ghost use Rattle.schedule_model.specs.Client.{Flight, reply_meaning, response_meaning, expose_meaning, restore_meaning};
ghost use Rattle.client_core.specs.Stages.{flight_at, IsSound};
ghost use Rattle.client_core.specs.Meanings.{meaning_of, meaning_in, IsOfBackup};
ghost use Rattle.client_core.specs.declared.meaning.Meaning.TheVariants.{Backed};

use crate::stage::Stage;
use values::{Answer, Bytes, Reply, Report, Request, Response};

/// The status of a response whose request did what it asked.
const OK: u32 = 1;
/// The status of a restore that found no record, or one that is not exposed.
const MISSING: u32 = 2;
/// The status of a restore whose PIN is not the record's.
const PIN_MISMATCH: u32 = 3;
/// The status of an expose that found no record with its secret.
const ERROR: u32 = 2;

/// What an answer means.
pub(crate) enum Meaning {
    /// Nothing: the request stays in flight.
    Nothing,
    /// The backup is done, and its expose is to follow.
    Backed,
    /// The want has ended.
    Ends(Report),
}

/// What the answer means to a client that waits so for the answer to this number.
pub(crate) fn answer_meaning(stage: &Stage, number: u64, answer: Answer) -> Meaning
    requires { IsSound number stage.now }
    ensures meaning { meaning_of result ≡ meaning_in (flight_at number stage.now) answer }
    ensures backup { IsOfBackup stage.now result }
{
    match (stage, answer) {
        (Stage::Idle, _) => Meaning::Nothing,
        (_, Answer::Outcome(_, reply)) => reply_meaning(stage, reply),
        (_, Answer::Undecided(..)) => Meaning::Ends(Report::Undecided { last: number }),
        (
            _,
            Answer::NotLeader(_)
            | Answer::Busy(_)
            | Answer::Malformed(_)
            | Answer::Invalid(..)
            | Answer::Halted(_),
        ) => Meaning::Nothing,
    }
}

/// What came of the request in flight.
fn reply_meaning(stage: &Stage, reply: Reply) -> Meaning
    ensures meaning { (number : ℕ) (f : Flight) → flight_at number stage.now ≡ Some f
        → meaning_of result ≡ reply_meaning f reply }
    ensures backup { IsOfBackup stage.now result }
{
    match reply {
        Reply::Applied(response) => response_meaning(stage, response),
        Reply::Stale(last) => Meaning::Ends(Report::Undecided { last }),
        Reply::TableFull(rows) => Meaning::Ends(Report::Full { rows }),
    }
}

/// A response of another kind than the request's, or of an unknown status, means nothing.
fn response_meaning(stage: &Stage, response: Response) -> Meaning
    ensures meaning { (number : ℕ) (f : Flight) → flight_at number stage.now ≡ Some f
        → meaning_of result ≡ response_meaning f.want f.exposes response }
    ensures backup { IsOfBackup stage.now result }
{
    match (stage, response) {
        (Stage::First(Request::Backup { .. }), Response::Backup { status: OK }) => Meaning::Backed,
        (Stage::Expose { .. }, Response::Expose { status }) => expose_meaning(status),
        (
            Stage::First(Request::Restore { .. }),
            Response::Restore {
                status,
                secret,
                tries,
            },
        ) => restore_meaning(status, secret, tries),
        (Stage::First(Request::Delete), Response::Delete) => Meaning::Ends(Report::Deleted),
        _ => Meaning::Nothing,
    }
}

fn expose_meaning(status: u32) -> Meaning
    ensures meaning { meaning_of result ≡ expose_meaning status }
    ensures backup { result ≢ Backed }
{
    match status {
        OK => Meaning::Ends(Report::Stored),
        ERROR => Meaning::Ends(Report::ExposeError),
        _ => Meaning::Nothing,
    }
}

fn restore_meaning(status: u32, secret: Bytes, tries: u32) -> Meaning
    ensures meaning { meaning_of result ≡ restore_meaning status secret tries }
    ensures backup { result ≢ Backed }
{
    match status {
        OK => Meaning::Ends(Report::Recovered {
            secret,
            left: tries,
        }),
        MISSING => Meaning::Ends(Report::Missing),
        PIN_MISMATCH => Meaning::Ends(Report::WrongPin { left: tries }),
        _ => Meaning::Nothing,
    }
}
