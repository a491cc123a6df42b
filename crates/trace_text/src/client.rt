//! The line of a client's report.
ghost use Rattle.std.specs.Prelude.{◌≡◌};
ghost use Rattle.fixed_fields.specs.Written.{Puts};
ghost use Rattle.schedule_model.specs.Lines as spec;

use crate::field::Field::{Hex, Number, Word};
use crate::field::small;
use crate::writer::TraceWriter;
use std::alloc::AllocError;
use values::{ClientId, Report};

impl TraceWriter {
    /// The line of what became of a client's want.
    pub fn report<'a>(&mut self, client: &'a ClientId, what: &'a Report) -> Result<(), AllocError>
        ensures { Puts result self.old self.new (spec.line_text (spec.client_line client.now what.now)) }
    {
        let id = Hex(&client.0);
        match what {
            Report::Stored => self.line("client", &[id, Word("stored")]),
            Report::Recovered { secret, left } => self.line(
                "client",
                &[id, Word("recovered"), Hex(secret.as_slice()), small(*left)],
            ),
            Report::WrongPin { left } => self.line("client", &[id, Word("wrongpin"), small(*left)]),
            Report::Missing => self.line("client", &[id, Word("missing")]),
            Report::Deleted => self.line("client", &[id, Word("deleted")]),
            Report::ExposeError => self.line("client", &[id, Word("exposeerror")]),
            Report::Full { rows } => self.line("client", &[id, Word("full"), small(*rows)]),
            Report::Undecided { last } => {
                self.line("client", &[id, Word("undecided"), Number(*last)])
            }
        }
    }
}
