//! What lines are written with.
ghost use Rattle.std.specs.Prelude.{◌≡◌, ◌∷◌, ◌++◌, [], cond, is_ok, map, decimal};
ghost use Rattle.fixed_fields.specs.Written.{Puts};
ghost use Rattle.schedule_model.specs.Lines as spec;
ghost use Rattle.schedule_text.specs.Joined.{after_comma, after_commas};
ghost use Rattle.trace_text.specs.Fields.{line_of, numbers_of, text_of, texts};

use crate::field::Field;
use schedule_text::{lines_are_joined, push_field, push_hex, push_number, push_reply};
use std::alloc::AllocError;
use std::marker::Model;
use values::{Memory, Reply};

/// Writes lines behind a text. Contracts see the text that stood there, and what was written behind it.
///
/// After want of memory some first bytes of a line may stand there; `finish` takes away all that was written.
#[derive(Debug, Drop)]
pub struct TraceWriter {
    text: Vec<u8>,
    start: usize,
}

impl Model for TraceWriter {
    ghost use Rattle.std.specs.Prelude.{◌≤◌, length, take, drop};
    ghost use Rattle.fixed_fields.specs.Written.{Written};

    ghost Value = { Written };

    ghost view = { λ w. record { front = take w.start w.text.items; tail = drop w.start w.text.items } };

    ghost invariant = { λ w. w.start ≤ length w.text.items };
}

impl TraceWriter {
    /// A writer behind this text.
    pub fn behind(text: Vec<u8>) -> TraceWriter
        ensures front { result.front ≡ text.items }
        ensures tail { result.tail ≡ [] }
    {
        let start = text.len();
        TraceWriter { text, start }
    }

    /// The text with what was written, or without it.
    pub fn finish(self, whole: bool) -> Vec<u8>
        ensures { result.items ≡ cond whole (self.front ++ self.tail) self.front }
    {
        let mut text = self.text;
        if !whole {
            text.truncate(self.start);
        }
        text
    }

    /// The first field of a line.
    pub(crate) fn open(&mut self, word: &str) -> Result<(), AllocError>
        ensures { Puts result self.old self.new word.now }
    {
        self.text.extend_from_slice(word.as_bytes())
    }

    /// The end of a line.
    pub(crate) fn close(&mut self) -> Result<(), AllocError>
        ensures { Puts result self.old self.new (10 ∷ []) }
    {
        self.text.extend_from_slice(b"\n")
    }

    /// A number behind a comma.
    fn number(&mut self, number: u64) -> Result<(), AllocError>
        ensures { Puts result self.old self.new (after_comma (decimal number)) }
    {
        self.text.extend_from_slice(b",")?;
        push_number(&mut self.text, number)
    }

    /// A field behind a comma.
    fn field(&mut self, field: &Field) -> Result<(), AllocError>
        ensures { Puts result self.old self.new (after_comma (text_of field.now)) }
    {
        match field {
            Field::Word(word) => push_field(&mut self.text, word.as_bytes()),
            Field::Number(number) => self.number(*number),
            Field::Hex(bytes) => push_hex(&mut self.text, bytes),
        }
    }

    /// Fields, each behind a comma.
    pub(crate) fn fields(&mut self, fields: &[Field]) -> Result<(), AllocError>
        ensures { Puts result self.old self.new (after_commas (texts fields.now)) }
    {
        for field in fields {
            self.field(field)?;
        }
        Ok(())
    }

    /// Numbers, each behind a comma.
    pub(crate) fn numbers(&mut self, numbers: &[u64]) -> Result<(), AllocError>
        ensures { Puts result self.old self.new (after_commas (map decimal numbers.now)) }
    {
        for number in numbers {
            self.number(*number)?;
        }
        Ok(())
    }

    /// A word and numbers, each behind a comma.
    pub(crate) fn named(&mut self, word: &str, numbers: &[u64]) -> Result<(), AllocError>
        ensures { Puts result self.old self.new (after_commas (word.now ∷ map decimal numbers.now)) }
    {
        push_field(&mut self.text, word.as_bytes())?;
        self.numbers(numbers)
    }

    /// Ids, each behind a comma.
    pub(crate) fn ids(&mut self, ids: &[u32]) -> Result<(), AllocError>
        ensures { Puts result self.old self.new (after_commas (map decimal ids.now)) }
    {
        for id in ids {
            self.number(u64::from(*id))?;
        }
        Ok(())
    }

    /// The fields of a reply, each behind a comma.
    pub(crate) fn reply(&mut self, reply: &Reply) -> Result<(), Memory>
        ensures { Puts result self.old self.new (after_commas (spec.reply_fields reply.now)) }
    {
        push_reply(&mut self.text, reply)
    }

    /// A line of a word and fields.
    pub(crate) fn line(&mut self, word: &str, fields: &[Field]) -> Result<(), AllocError>
        ensures { Puts result self.old self.new (spec.line_text (line_of word.now fields.now)) }
    {
        lines_are_joined();
        self.open(word)?;
        self.fields(fields)?;
        self.close()
    }

    /// A line of a word, numbers and ids.
    pub(crate) fn number_line(
        &mut self,
        word: &str,
        numbers: &[u64],
        ids: &[u32],
    ) -> Result<(), AllocError>
        ensures { Puts result self.old self.new (spec.line_text (numbers_of word.now numbers.now ids.now)) }
    {
        lines_are_joined();
        self.open(word)?;
        self.numbers(numbers)?;
        self.ids(ids)?;
        self.close()
    }
}
