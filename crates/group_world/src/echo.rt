//! Given contents that answer whatever is asked.
ghost use Rattle.std.specs.Prelude.{◌≡◌, ◌↔◌, ◌∷◌, [], OnOk, OnErr, None, Some, Ok, Err};
ghost use Rattle.byte_streams.specs.Causes.{HasCauseAt, next};
ghost use Rattle.enclave_host.specs.Fields.{Calling, Gains, GivesContent, Outcome, WhereTold};
ghost use Rattle.group_world.specs.Echoes.{fresh, failed_once};

use enclave_host::{Field, FieldFault};
use std::marker::Model;
use values::{Bytes, ReplicaId};

/// Contents that answer one call after another, whatever it hands over. It tells what it answered and not what runs:
/// its starts and stops do nothing. Contracts see the contents that it answered, those that are left, and its faults.
#[derive(Drop)]
pub struct EchoField {
    contents: Vec<Bytes>,
    next: usize,
    faults: u64,
}

impl Model for EchoField {
    ghost use Rattle.std.specs.Prelude.{drop, length, take, ◌≤◌};
    ghost use Rattle.group_world.specs.Echoes.{Echo};

    ghost Value = { Echo };

    ghost view = { λ f. record {
      given = take f.next f.contents.items;
      left = drop f.next f.contents.items;
      faults = f.faults;
    } };

    ghost invariant = { λ f. f.next ≤ length f.contents.items };
}

impl EchoField {
    /// A field that answers these contents, in their order.
    pub fn new(contents: Vec<Bytes>) -> EchoField
        ensures { result ≡ fresh contents.items }
    {
        EchoField {
            contents,
            next: 0,
            faults: 0,
        }
    }
}

impl Field for EchoField {
    ghost map = { λ f. None };

    ghost answers = { λ f. Some f.given };

    ghost faults = { λ f. f.faults };

    /// Never fails, and changes nothing.
    fn start(&mut self, _id: ReplicaId, _hello: &[u8]) -> Result<(), FieldFault>
        ensures gives { Gains (Some self.old.given) (Some self.new.given) [] }
        ensures cause { HasCauseAt FieldFault.Failed self.old.faults self.new.faults result }
        ensures ok { (result ≡ Ok (record {})) }
        ensures same { self.new ≡ self.old }
    {
        Ok(())
    }

    /// Answers the first content that is left, and fails exactly where none is.
    fn call(&mut self, _id: ReplicaId, _input: &[u8], out: &mut Vec<u8>) -> Result<(), FieldFault>
        ensures gives { GivesContent (Some self.old.given) (Some self.new.given) result out.new.items }
        ensures cause { HasCauseAt FieldFault.Failed self.old.faults self.new.faults result }
        ensures answer { OnOk result ((self.old.left ≡ out.new.items ∷ self.new.left) × (self.new.faults ≡ self.old.faults)) }
        ensures fails { (result ≡ Err FieldFault.Failed) ↔ (self.old.left ≡ []) }
        ensures memory { result ≡ Err FieldFault.Memory → self.new ≡ self.old }
        ensures failed { result ≡ Err FieldFault.Failed → self.new ≡ failed_once self.old }
    {
        let Some(content) = self.contents.get(self.next) else {
            self.faults = self.faults.saturating_add(1);
            return Err(FieldFault::Failed);
        };
        out.clear();
        if out.extend_from_slice(content.as_slice()).is_err() {
            return Err(FieldFault::Memory);
        }
        self.next += 1;
        Ok(())
    }

    /// Never fails, and changes nothing.
    fn stop(&mut self, _id: ReplicaId) -> Result<(), FieldFault>
        ensures gives { Gains (Some self.old.given) (Some self.new.given) [] }
        ensures cause { HasCauseAt FieldFault.Failed self.old.faults self.new.faults result }
        ensures ok { (result ≡ Ok (record {})) }
        ensures same { self.new ≡ self.old }
    {
        Ok(())
    }
}
