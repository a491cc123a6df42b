//! The words by which records are told apart.
ghost use Rattle.std.specs.Prelude.{◌≡◌, map, option_map};
ghost use Rattle.record_cutting.specs.Lines.{record_of};
ghost use Rattle.schedule_model.specs.Records as spec;
ghost use Rattle.schedule_text.specs.Words.{Tells, entry, meant};

use crate::fault::RecordFault;
use crate::field::field;
use values::Cause;

/// What a record says by its first field; of a want, by its third.
#[derive(Clone, Copy, Debug, PartialEq, Eq)]
pub enum Word {
    Begin,
    Start,
    Tick,
    Deliver,
    Lose,
    Settle,
    Crash,
    Save,
    Roll,
    Join,
    Admit,
    Remove,
    Margin,
    Ask,
    Store,
    Recover,
    Erase,
    Say,
    Hear,
    Again,
}

/// The first fields of records.
const FIRST_WORDS: [(&'static str, Word); 16] = [
    ("begin", Word::Begin),
    ("start", Word::Start),
    ("tick", Word::Tick),
    ("deliver", Word::Deliver),
    ("lose", Word::Lose),
    ("settle", Word::Settle),
    ("crash", Word::Crash),
    ("save", Word::Save),
    ("roll", Word::Roll),
    ("join", Word::Join),
    ("admit", Word::Admit),
    ("remove", Word::Remove),
    ("margin", Word::Margin),
    ("ask", Word::Ask),
    ("say", Word::Say),
    ("hear", Word::Hear),
];

/// The third fields of wants.
const WANT_WORDS: [(&'static str, Word); 3] = [
    ("store", Word::Store),
    ("recover", Word::Recover),
    ("delete", Word::Erase),
];

/// What a text means in a list of texts with their meanings.
fn meaning(text: &[u8], words: &[(&'static str, Word)]) -> Option<Word>
    ensures { option_map meant result ≡ spec.meaning text.now (map entry words.now) }
{
    for (name, word) in words {
        if text == name.as_bytes() {
            return Some(*word);
        }
    }
    None
}

/// The word of a record. `again` is one where clients are driven.
pub fn word_of(driven: bool, fields: &[&[u8]]) -> Result<Word, RecordFault>
    ensures { Tells result (spec.word_of driven (record_of fields.now)) }
{
    let first = field(fields, 1);
    if first == b"want".as_slice() {
        if fields.len() < 3 {
            return Err(RecordFault::new(Cause::Fields, 0));
        }
        return meaning(field(fields, 3), &WANT_WORDS).ok_or(RecordFault::new(Cause::Word, 3));
    }
    if driven && first == b"again".as_slice() {
        return Ok(Word::Again);
    }
    meaning(first, &FIRST_WORDS).ok_or(RecordFault::new(Cause::Word, 1))
}

/// Whether a record of this word may have so many fields.
pub fn has_fields(word: Word, count: usize) -> bool
    ensures { result ≡ spec.has_fields (meant word) count }
{
    match word {
        Word::Begin => count >= 4,
        Word::Start
        | Word::Tick
        | Word::Deliver
        | Word::Lose
        | Word::Settle
        | Word::Crash
        | Word::Save
        | Word::Again => count == 2,
        Word::Roll
        | Word::Join
        | Word::Admit
        | Word::Remove
        | Word::Margin
        | Word::Erase
        | Word::Say
        | Word::Hear => count == 3,
        Word::Recover => count == 4,
        Word::Ask => count == 5,
        Word::Store => count == 6,
    }
}

/// The begin record comes first, and once.
pub fn placed(begun: bool, word: Word) -> Result<Word, RecordFault>
    ensures { Tells result (spec.placed begun (meant word)) }
{
    match (begun, word) {
        (true, Word::Begin) => Err(RecordFault::new(Cause::SecondBegin, 0)),
        (false, Word::Begin) => Ok(Word::Begin),
        (true, word) => Ok(word),
        (false, _) => Err(RecordFault::new(Cause::NoBegin, 0)),
    }
}
