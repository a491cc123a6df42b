//! The kinds of fields.
ghost use Rattle.std.specs.Prelude.{◌≡◌};
ghost use Rattle.std.specs.List.{list_any};
ghost use Rattle.std.specs.Prelude.{bytes_eq};
ghost use Rattle.record_cutting.specs.Lines.{record_of};
ghost use Rattle.trace_lines.specs.Kinds as spec;

use crate::field::{index, is_hex, is_sized, number, replica, wide};
use group_quorum::MAX_ID;

/// What a field of a line may be.
#[derive(Clone, Copy, Debug, PartialEq, Eq)]
pub enum Kind {
    /// The id of a replica, from 1 to 65,535.
    Replica,
    /// The same, or 0 for none.
    Leader,
    /// An index or a term.
    Index,
    /// A number of 64 bits.
    Wide,
    /// A number of 32 bits.
    Small,
    /// 0 or 1.
    Bit,
    /// 64 digits of lower-case hexadecimal.
    Hash,
    /// 32 of them.
    Client,
    /// An even number of them.
    Hex,
    /// A part of a request.
    Part,
    /// Why a record means nothing.
    Cause,
    /// What a run has a limit of.
    Quantity,
}

/// The parts of a request.
const PARTS: [&'static str; 4] = ["nothing", "data", "pin", "tries"];

/// The causes of a record's fault.
const CAUSES: [&'static str; 10] = [
    "word",
    "fields",
    "nobegin",
    "secondbegin",
    "number",
    "range",
    "hex",
    "toomany",
    "double",
    "toofew",
];

/// What a run has a limit of.
const QUANTITIES: [&'static str; 6] = [
    "events", "messages", "answers", "replicas", "states", "clients",
];

/// Whether a text is one of these words.
fn is_among(text: &[u8], words: &[&'static str]) -> bool
    ensures { result ≡ list_any (λ word. bytes_eq text.now word.now) words.now }
{
    words.iter().any(|word| text == word.as_bytes())
}

/// Whether a text is a field of this kind.
pub fn fits_field(kind: Kind, text: &[u8]) -> bool
    ensures { result ≡ spec.fits_field kind text.now }
{
    match kind {
        Kind::Replica => replica(text).is_some(),
        Kind::Leader => number(text, 0, u64::from(MAX_ID)).is_some(),
        Kind::Index => index(text).is_some(),
        Kind::Wide => wide(text).is_some(),
        Kind::Small => number(text, 0, u64::from(u32::MAX)).is_some(),
        Kind::Bit => number(text, 0, 1).is_some(),
        Kind::Hash => is_sized(text, 32),
        Kind::Client => is_sized(text, 16),
        Kind::Hex => is_hex(text),
        Kind::Part => is_among(text, &PARTS),
        Kind::Cause => is_among(text, &CAUSES),
        Kind::Quantity => is_among(text, &QUANTITIES),
    }
}

/// Whether these are fields of these kinds, one each.
pub fn fits(kinds: &[Kind], fields: &[&[u8]]) -> bool
    ensures { result ≡ spec.fits kinds.now (record_of fields.now) }
{
    kinds.len() == fields.len()
        && kinds
            .iter()
            .zip(fields)
            .all(|(kind, text)| fits_field(*kind, text))
}
