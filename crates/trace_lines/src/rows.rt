//! Lines that are told by the kinds of their fields alone.
ghost use Rattle.std.specs.Prelude.{◌≡◌, map, option_map};
ghost use Rattle.record_cutting.specs.Lines.{record_of};
ghost use Rattle.schedule_model.specs.Records as records;
ghost use Rattle.trace_lines.specs.Kinds as spec;
ghost use Rattle.trace_lines.specs.Lines as lines;
ghost use Rattle.trace_lines.specs.Words.{row};

use crate::kind::{Kind, fits, fits_field};

/// A word, and the kinds of the fields that follow it.
type Row = (&'static str, &'static [Kind]);

/// The messages.
const MESSAGES: [Row; 7] = [
    ("askvote", &[Kind::Index, Kind::Index, Kind::Index]),
    ("vote", &[Kind::Index, Kind::Bit]),
    (
        "append",
        &[
            Kind::Index,
            Kind::Index,
            Kind::Wide,
            Kind::Index,
            Kind::Index,
        ],
    ),
    ("accepted", &[Kind::Index, Kind::Index, Kind::Index]),
    ("rejected", &[Kind::Index, Kind::Index, Kind::Index]),
    (
        "part",
        &[
            Kind::Index,
            Kind::Index,
            Kind::Wide,
            Kind::Wide,
            Kind::Small,
        ],
    ),
    ("parttaken", &[Kind::Index, Kind::Index, Kind::Wide]),
];

/// The reports to clients.
const REPORTS: [Row; 8] = [
    ("stored", &[]),
    ("recovered", &[Kind::Hex, Kind::Small]),
    ("wrongpin", &[Kind::Small]),
    ("missing", &[]),
    ("deleted", &[]),
    ("exposeerror", &[]),
    ("full", &[Kind::Small]),
    ("undecided", &[Kind::Wide]),
];

/// The answers that are no outcome.
const ANSWERS: [Row; 6] = [
    ("notleader", &[Kind::Leader]),
    ("busy", &[Kind::Wide]),
    ("undecided", &[Kind::Index, Kind::Hash, Kind::Hash]),
    ("malformed", &[Kind::Wide]),
    ("invalid", &[Kind::Part, Kind::Wide]),
    ("halted", &[Kind::Index]),
];

/// The refusals of a replica, and of the group.
const REFUSALS: [Row; 23] = [
    ("notleader", &[Kind::Wide]),
    ("changepending", &[Kind::Wide, Kind::Wide]),
    ("alreadyvoter", &[Kind::Wide]),
    ("notvoter", &[Kind::Wide]),
    ("toofew", &[Kind::Wide]),
    ("toomany", &[Kind::Wide]),
    ("notcaughtup", &[Kind::Wide, Kind::Wide]),
    ("nolink", &[Kind::Wide]),
    ("logfull", &[Kind::Wide]),
    ("nostate", &[Kind::Wide]),
    ("notforme", &[Kind::Wide]),
    ("badpeer", &[Kind::Wide]),
    ("samemargin", &[Kind::Wide]),
    ("nomessage", &[Kind::Wide]),
    ("lost", &[Kind::Wide]),
    ("notrunning", &[Kind::Wide]),
    ("alreadystarted", &[Kind::Wide]),
    ("clientbusy", &[]),
    ("size", &[Kind::Part, Kind::Wide]),
    ("numbersout", &[Kind::Wide]),
    ("nothing", &[]),
    ("noanswer", &[Kind::Wide]),
    ("notyours", &[Kind::Wide]),
];

/// Why a trace ends early.
const STOPS: [Row; 3] = [
    ("schedule", &[Kind::Wide, Kind::Cause, Kind::Wide]),
    ("limit", &[Kind::Quantity]),
    ("frame", &[]),
];

/// The kinds of the fields that follow a word.
fn kinds_after(word: &[u8], rows: &[Row]) -> Option<&'static [Kind]>
    ensures { option_map (λ kinds. kinds.now) result ≡ records.meaning word.now (map row rows.now) }
{
    for (name, kinds) in rows {
        if word == name.as_bytes() {
            return Some(*kinds);
        }
    }
    None
}

/// Whether these are a word, and fields of the kinds that follow it.
fn fits_row(rows: &[Row], fields: &[&[u8]]) -> bool
    ensures { result ≡ spec.fits_row (map row rows.now) (record_of fields.now) }
{
    match fields {
        [] => false,
        [word, fields @ ..] => match kinds_after(word, rows) {
            Some(kinds) => fits(kinds, fields),
            None => false,
        },
    }
}

/// `sent,K,FROM,TO,` and a message, behind the first word.
pub fn is_sent(fields: &[&[u8]]) -> bool
    ensures { result ≡ lines.is_sent (record_of fields.now) }
{
    match fields {
        [number, from, to, message @ ..] => {
            fits_field(Kind::Wide, number)
                && fits_field(Kind::Replica, from)
                && fits_field(Kind::Replica, to)
                && fits_row(&MESSAGES, message)
        }
        _ => false,
    }
}

/// `client,C,` and a report, behind the first word.
pub fn is_report(fields: &[&[u8]]) -> bool
    ensures { result ≡ lines.is_report (record_of fields.now) }
{
    match fields {
        [client, report @ ..] => fits_field(Kind::Client, client) && fits_row(&REPORTS, report),
        _ => false,
    }
}

/// An answer that is no outcome.
pub fn is_answer(fields: &[&[u8]]) -> bool
    ensures { result ≡ spec.fits_row spec.answer_rows (record_of fields.now) }
{
    fits_row(&ANSWERS, fields)
}

/// A refusal.
pub fn is_refusal(fields: &[&[u8]]) -> bool
    ensures { result ≡ spec.fits_row spec.refusal_rows (record_of fields.now) }
{
    fits_row(&REFUSALS, fields)
}

/// Why a trace ends early.
pub fn is_stop(fields: &[&[u8]]) -> bool
    ensures { result ≡ spec.fits_row spec.stop_rows (record_of fields.now) }
{
    fits_row(&STOPS, fields)
}
