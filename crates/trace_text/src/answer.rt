//! The line of an answer.
ghost use Rattle.std.specs.Prelude.{◌≡◌};
ghost use Rattle.fixed_fields.specs.Written.{Puts};
ghost use Rattle.schedule_model.specs.Lines as spec;
ghost use Rattle.schedule_text.specs.Joined.{after_commas};

use crate::field::Field::{Hex, Number, Word};
use crate::field::small;
use crate::writer::TraceWriter;
use schedule_text::{lines_are_joined, part_word};
use values::{Answer, ClientId, Memory, ReplicaId};

impl TraceWriter {
    /// The fields of what a replica answers, each behind a comma.
    fn answer_fields(&mut self, what: &Answer) -> Result<(), Memory>
        ensures { Puts result self.old self.new (after_commas (spec.answer_fields what.now)) }
    {
        match what {
            Answer::Outcome(index, reply) => {
                self.fields(&[Word("outcome"), Number(*index)])?;
                self.reply(reply)
            }
            Answer::NotLeader(id) => Ok(self.fields(&[Word("notleader"), small(*id)])?),
            Answer::Busy(open) => Ok(self.fields(&[Word("busy"), Number(*open)])?),
            Answer::Undecided(index, kept, offered) => Ok(self.fields(&[
                Word("undecided"),
                Number(*index),
                Hex(&kept.0),
                Hex(&offered.0),
            ])?),
            Answer::Malformed(offset) => Ok(self.fields(&[Word("malformed"), Number(*offset)])?),
            Answer::Invalid(part, length) => Ok(self.fields(&[
                Word("invalid"),
                Word(part_word(*part)),
                Number(*length),
            ])?),
            Answer::Halted(index) => Ok(self.fields(&[Word("halted"), Number(*index)])?),
        }
    }

    /// The line of the answer of this number to what the client asked under the number `asked`.
    pub(crate) fn answer(
        &mut self,
        replica: ReplicaId,
        number: u64,
        client: &ClientId,
        asked: u64,
        what: &Answer,
    ) -> Result<(), Memory>
        ensures { Puts result self.old self.new (spec.line_text (spec.answer_line replica (number, (client.now, asked, what.now)))) }
    {
        lines_are_joined();
        self.open("answer")?;
        self.fields(&[
            Number(number),
            small(replica),
            Hex(&client.0),
            Number(asked),
        ])?;
        self.answer_fields(what)?;
        self.close()?;
        Ok(())
    }
}
