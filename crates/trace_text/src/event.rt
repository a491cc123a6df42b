//! The line of an event.
ghost use Rattle.std.specs.Prelude.{◌≡◌};
ghost use Rattle.fixed_fields.specs.Written.{Puts};
ghost use Rattle.schedule_model.specs.Lines as spec;
ghost use Rattle.schedule_text.specs.Joined.{after_commas};

use crate::field::Field::{Hex, Number, Word};
use crate::field::small;
use crate::writer::TraceWriter;
use schedule_text::lines_are_joined;
use std::alloc::AllocError;
use values::{Event, Want};

impl TraceWriter {
    /// The fields of what a client wants, each behind a comma.
    fn want(&mut self, want: &Want) -> Result<(), AllocError>
        ensures { Puts result self.old self.new (after_commas (spec.want_fields want.now)) }
    {
        match want {
            Want::Store { secret, pin, tries } => self.fields(&[
                Word("store"),
                Hex(secret.as_slice()),
                Hex(&pin.0),
                small(*tries),
            ]),
            Want::Recover { pin } => self.fields(&[Word("recover"), Hex(&pin.0)]),
            Want::Erase => self.fields(&[Word("delete")]),
        }
    }

    /// The fields of an event's record, each behind a comma.
    fn record(&mut self, what: &Event) -> Result<(), AllocError>
        ensures { Puts result self.old self.new (after_commas (spec.record_fields what.now)) }
    {
        match what {
            Event::Begin {
                margin,
                limit,
                voters,
            } => {
                self.named("begin", &[u64::from(*margin), u64::from(*limit)])?;
                self.ids(voters.as_slice())
            }
            Event::Start { replica } => self.named("start", &[u64::from(*replica)]),
            Event::Tick { replica } => self.named("tick", &[u64::from(*replica)]),
            Event::Deliver { message } => self.named("deliver", &[*message]),
            Event::Lose { message } => self.named("lose", &[*message]),
            Event::Settle { most } => self.named("settle", &[u64::from(*most)]),
            Event::Crash { replica } => self.named("crash", &[u64::from(*replica)]),
            Event::Save { replica } => self.named("save", &[u64::from(*replica)]),
            Event::Roll { replica, state } => {
                self.named("roll", &[u64::from(*replica), u64::from(*state)])
            }
            Event::Join { replica, id } => {
                self.named("join", &[u64::from(*replica), u64::from(*id)])
            }
            Event::Admit { replica, id } => {
                self.named("admit", &[u64::from(*replica), u64::from(*id)])
            }
            Event::Remove { replica, id } => {
                self.named("remove", &[u64::from(*replica), u64::from(*id)])
            }
            Event::Margin { replica, margin } => {
                self.named("margin", &[u64::from(*replica), u64::from(*margin)])
            }
            Event::Ask {
                replica,
                client,
                number,
                request,
            } => self.fields(&[
                Word("ask"),
                small(*replica),
                Hex(&client.0),
                Number(*number),
                Hex(request.as_slice()),
            ]),
            Event::Want { client, want } => {
                self.fields(&[Word("want"), Hex(&client.0)])?;
                self.want(want)
            }
            Event::Say { client, replica } => {
                self.fields(&[Word("say"), Hex(&client.0), small(*replica)])
            }
            Event::Hear { client, answer } => {
                self.fields(&[Word("hear"), Hex(&client.0), Number(*answer)])
            }
            Event::Again { client } => self.fields(&[Word("again"), Hex(&client.0)]),
        }
    }

    /// The line of the event of this number.
    pub fn event(&mut self, number: u64, what: &Event) -> Result<(), AllocError>
        ensures { Puts result self.old self.new (spec.line_text (spec.event_line number what.now)) }
    {
        lines_are_joined();
        self.open("event")?;
        self.numbers(&[number])?;
        self.record(what)?;
        self.close()
    }
}
