//! Messages are delivered one after another.
ghost use Rattle.std.specs.Prelude.{◌≡◌, List, OnOk};
ghost use Rattle.byte_streams.specs.Causes.{HasCauseAt};
ghost use Rattle.enclave_host.specs.Fields.{Gains};
ghost use Rattle.group_world.specs.Given.{Given, contents_in};
ghost use Rattle.group_world.specs.Playing.{CanPlay, Writes, deliveries};

use crate::halt::Halt;
use crate::player::GroupPlayer;
use enclave_host::Field;
use record_stream::Stop;
use values::Event;

impl<F: Field> GroupPlayer<F> {
    /// Delivers messages up to this number: each time the next one, as long as there is one.
    pub fn settle(&mut self, most: u32, lines: &mut Vec<u8>) -> Result<(), Stop<Halt>>
        requires can { CanPlay self.old.world (F.map self.old.field) }
        ensures writes { (given : List Given) × Gains (F.answers self.old.field) (F.answers self.new.field) (contents_in given)
            × Writes (deliveries most) self.old.world self.new.world (F.map self.old.field) (F.map self.new.field) given lines.old.items lines.new.items result }
        ensures can { OnOk result (CanPlay self.new.world (F.map self.new.field)) }
        ensures cause { HasCauseAt Stop.Failed (F.faults self.old.field) (F.faults self.new.field) result }
        ensures records { self.new.records ≡ self.old.records }
    {
        for _ in 0..most {
            let Some(message) = self.world.next_message() else {
                return Ok(());
            };
            self.play_event(&Event::Deliver { message }, lines)?;
        }
        Ok(())
    }
}
