//! The line of a committed entry.
ghost use Rattle.std.specs.Prelude.{◌≡◌};
ghost use Rattle.fixed_fields.specs.Written.{Puts};
ghost use Rattle.schedule_model.specs.Lines as spec;
ghost use Rattle.schedule_text.specs.Joined.{after_commas};

use crate::field::Field::{Hex, Number, Word};
use crate::field::small;
use crate::writer::TraceWriter;
use schedule_text::lines_are_joined;
use std::alloc::AllocError;
use values::{Body, LogEntry, ReplicaId};

impl TraceWriter {
    /// The fields of an entry's content, each behind a comma.
    fn body(&mut self, body: &Body) -> Result<(), AllocError>
        ensures { Puts result self.old self.new (after_commas (spec.body_fields body.now)) }
    {
        match body {
            Body::Noop => self.fields(&[Word("noop")]),
            Body::Ask {
                client,
                number,
                request,
            } => self.fields(&[
                Word("ask"),
                Hex(&client.0),
                Number(*number),
                Hex(request.as_slice()),
            ]),
            Body::Members { margin, voters } => {
                self.fields(&[Word("members"), small(u32::from(*margin))])?;
                self.ids(voters.as_slice())
            }
        }
    }

    /// The line of the entry at this index, which committed on the replica.
    pub(crate) fn commit(
        &mut self,
        replica: ReplicaId,
        index: u64,
        entry: &LogEntry,
    ) -> Result<(), AllocError>
        ensures { Puts result self.old self.new (spec.line_text (spec.commit_line replica (index, entry.now))) }
    {
        lines_are_joined();
        self.open("commit")?;
        self.numbers(&[u64::from(replica), index, entry.term])?;
        self.body(&entry.body)?;
        self.close()
    }
}
