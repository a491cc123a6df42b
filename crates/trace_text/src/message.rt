//! The line of a message.
ghost use Rattle.std.specs.Prelude.{◌≡◌};
ghost use Rattle.fixed_fields.specs.Written.{Puts};
ghost use Rattle.schedule_model.specs.Lines as spec;
ghost use Rattle.schedule_text.specs.Joined.{after_commas};

use crate::writer::TraceWriter;
use schedule_text::lines_are_joined;
use std::alloc::AllocError;
use values::{PeerMsg, ReplicaId};

impl TraceWriter {
    /// The fields of a message, each behind a comma: of its lists how long they are, of its points their indices.
    fn message(&mut self, message: &PeerMsg) -> Result<(), AllocError>
        ensures { Puts result self.old self.new (after_commas (spec.message_fields message.now)) }
    {
        match message {
            PeerMsg::AskVote {
                term,
                last_index,
                last_term,
            } => self.named("askvote", &[*term, *last_index, *last_term]),
            PeerMsg::Vote { term, granted } => { self.named("vote", &[*term, u64::from(*granted)]) }
            PeerMsg::Append {
                term,
                prev,
                entries,
                promise,
                commit,
            } => {
                let count = entries.len() as u64;
                self.named("append", &[*term, prev.index, count, *promise, *commit])
            }
            PeerMsg::Accepted {
                term,
                end,
                promised,
            } => self.named("accepted", &[*term, end.index, *promised]),
            PeerMsg::Rejected { term, asked, hint } => {
                self.named("rejected", &[*term, *asked, *hint])
            }
            PeerMsg::Part { term, part } => {
                let rows = part.rows.len() as u64;
                let (number, count) = (u64::from(part.part), u64::from(part.parts));
                self.named("part", &[*term, part.point.index, number, count, rows])
            }
            PeerMsg::PartTaken { term, point, next } => {
                self.named("parttaken", &[*term, point.index, u64::from(*next)])
            }
        }
    }

    /// The line of the message of this number from one replica to another.
    pub(crate) fn sent(
        &mut self,
        from: ReplicaId,
        number: u64,
        to: ReplicaId,
        message: &PeerMsg,
    ) -> Result<(), AllocError>
        ensures { Puts result self.old self.new (spec.line_text (spec.sent_line from (number, (to, message.now)))) }
    {
        lines_are_joined();
        self.open("sent")?;
        self.numbers(&[number, u64::from(from), u64::from(to)])?;
        self.message(message)?;
        self.close()
    }
}
