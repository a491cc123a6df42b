//! The closing lines.
ghost use Rattle.std.specs.Prelude.{◌≡◌};
ghost use Rattle.fixed_fields.specs.Written.{Puts};
ghost use Rattle.schedule_model.specs.Lines as spec;

use crate::field::Field::Word;
use crate::writer::TraceWriter;
use std::alloc::AllocError;

/// What a run ended with.
#[derive(Clone, Copy, Debug, PartialEq, Eq)]
pub struct Closing {
    /// The greatest committed index of any replica after any event.
    pub log: u64,
    /// Whether each configuration had at most twice its margin of rolled-back voters.
    pub within: bool,
    /// How many events there were.
    pub events: u64,
    /// How many messages were sent.
    pub messages: u64,
    /// How many answers were given.
    pub answers: u64,
}

/// Whether the bound on rollbacks was kept, as a word.
fn bound_word(within: bool) -> &'static str
    ensures { result.now ≡ spec.bound_word within }
{
    if within { "within" } else { "exceeded" }
}

impl TraceWriter {
    /// The three closing lines.
    pub fn closing(&mut self, closing: &Closing) -> Result<(), AllocError>
        ensures { Puts result self.old self.new (spec.lines_text (spec.closing_lines closing.now.log closing.now.within closing.now.events closing.now.messages closing.now.answers)) }
    {
        self.number_line("log", &[closing.log], &[])?;
        self.line("rollbacks", &[Word(bound_word(closing.within))])?;
        let counts = [closing.events, closing.messages, closing.answers];
        self.number_line("end", &counts, &[])
    }
}
