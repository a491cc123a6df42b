//! Enclaves in memory, and such of which given calls fail.
ghost use Rattle.std.specs.Prelude.{◌≡◌, ◌≤◌, ◌↔◌, [], IsSome, IsTrue, None, Some, Err};
ghost use Rattle.byte_streams.specs.Causes.{HasCauseAt, Rose};
ghost use Rattle.byte_streams.specs.InMemory.{is_listed};
ghost use Rattle.enclave_host.specs.Fields.{Calling, Gains, GivesContent, IsHelloFor, IsInput, Outcome, SameBut, Starting, WhereTold};
ghost use Rattle.group_world.specs.Scripts.{counted, fresh, map_of};

use enclave_host::{Enclave, Field, FieldFault};
use std::alloc::Global;
use std::collections::BTreeMap;
use std::marker::Model;
use values::ReplicaId;

/// Enclaves in memory. It tells which run and not what they answer, and never fails. Contracts see
/// the enclaves that run under their ids.
#[derive(Drop)]
pub struct LocalField {
    alloc: Global,
    running: BTreeMap<ReplicaId, Enclave>,
}

impl Model for LocalField {
    ghost use Rattle.std.specs.Prelude.{ℕ, List, Option};
    ghost use Rattle.enclave_host.specs.declared.running.Running.{Running};

    ghost Value = { List (ℕ × Option Running) };

    ghost view = { λ f. f.running.entries };
}

impl LocalField {
    /// A field in which nothing runs.
    pub fn new(alloc: Global) -> LocalField
        ensures { result ≡ [] }
    {
        LocalField {
            alloc,
            running: BTreeMap::new(alloc),
        }
    }

    /// Takes an enclave away, apart from a call that goes well, which so takes no room for it.
    #[inline(never)]
    fn take_away(&mut self, id: ReplicaId)
        ensures none { map_of self.new id ≡ None }
        ensures others { SameBut (map_of self.old) (map_of self.new) id }
    {
        self.running.remove(&id);
    }
}

impl Field for LocalField {
    ghost map = { λ f. Some (map_of f) };

    ghost answers = { λ f. None };

    ghost faults = { λ f. 0 };

    fn start(&mut self, id: ReplicaId, hello: &[u8]) -> Result<(), FieldFault> {
        // A content that starts this replica is refused for want of memory alone.
        let Ok(enclave) = Enclave::start(self.alloc, hello) else {
            return Err(FieldFault::Memory);
        };
        match self.running.insert(id, enclave) {
            Ok(_) => Ok(()),
            Err(_) => Err(FieldFault::Memory),
        }
    }

    fn call(&mut self, id: ReplicaId, input: &[u8], out: &mut Vec<u8>) -> Result<(), FieldFault> {
        out.clear();
        let called = match self.running.get_mut(&id) {
            Some(enclave) => enclave.call(input, out).is_ok(),
            None => false,
        };
        if called {
            return Ok(());
        }
        // The enclave is spent, since it refuses an input for want of memory alone.
        self.take_away(id);
        Err(FieldFault::Memory)
    }

    fn stop(&mut self, id: ReplicaId) -> Result<(), FieldFault> {
        self.take_away(id);
        Ok(())
    }
}

/// Enclaves in memory, of which the calls of given numbers fail: starts, calls and stops are counted together, from 1.
/// The count stays at its top, 2^64 - 1, once it is there. It tells which enclaves run, and not what they answer.
#[derive(Drop)]
pub struct ScriptField {
    enclaves: LocalField,
    failing: Vec<u64>,
    calls: u64,
    faults: u64,
}

impl Model for ScriptField {
    ghost use Rattle.group_world.specs.Scripts.{Script};

    ghost Value = { Script };

    ghost view = { λ f. record { running = f.enclaves; failing = f.failing.items; calls = f.calls; faults = f.faults } };
}

impl ScriptField {
    /// A field in which nothing runs, and which fails the calls of these numbers.
    pub fn new(alloc: Global, failing: Vec<u64>) -> ScriptField
        ensures { result ≡ fresh failing.items }
    {
        ScriptField {
            enclaves: LocalField::new(alloc),
            failing,
            calls: 0,
            faults: 0,
        }
    }

    /// Counts a call, and says whether it is to fail.
    fn fails(&mut self) -> bool
        ensures listed { result ≡ is_listed self.old.failing self.old.calls }
        ensures counted { self.new ≡ counted self.old }
        ensures later { self.old.faults ≤ self.new.faults }
        ensures rose { IsTrue result → Rose self.old.faults self.new.faults }
    {
        self.calls = self.calls.saturating_add(1);
        let fails = self.failing.contains(&self.calls);
        if fails {
            self.faults = self.faults.saturating_add(1);
        }
        fails
    }
}

impl Field for ScriptField {
    ghost map = { λ f. Some (map_of f.running) };

    ghost answers = { λ f. None };

    ghost faults = { λ f. f.faults };

    /// Fails exactly where the call is listed.
    fn start(&mut self, id: ReplicaId, hello: &[u8]) -> Result<(), FieldFault>
        requires { (map_of self.old.running id ≡ None) × IsHelloFor id hello.now }
        ensures runs { WhereTold (Some (map_of self.old.running)) (Some (map_of self.new.running)) (λ was now. Outcome result was now id (Starting now id hello.now)) }
        ensures gives { Gains None None [] }
        ensures cause { HasCauseAt FieldFault.Failed self.old.faults self.new.faults result }
        ensures listed { (result ≡ Err FieldFault.Failed) ↔ IsTrue (is_listed self.old.failing self.old.calls) }
        ensures counted { self.new ≡ record (counted self.old) { running = self.new.running } }
    {
        if self.fails() {
            return Err(FieldFault::Failed);
        }
        self.enclaves.start(id, hello)
    }

    /// Fails exactly where the call is listed.
    fn call(&mut self, id: ReplicaId, input: &[u8], out: &mut Vec<u8>) -> Result<(), FieldFault>
        requires { IsSome (map_of self.old.running id) × IsInput input.now }
        ensures steps { WhereTold (Some (map_of self.old.running)) (Some (map_of self.new.running)) (λ was now. Outcome result was now id (Calling was now id input.now out.new.items)) }
        ensures gives { GivesContent None None result out.new.items }
        ensures cause { HasCauseAt FieldFault.Failed self.old.faults self.new.faults result }
        ensures listed { (result ≡ Err FieldFault.Failed) ↔ IsTrue (is_listed self.old.failing self.old.calls) }
        ensures counted { self.new ≡ record (counted self.old) { running = self.new.running } }
    {
        if self.fails() {
            return Err(FieldFault::Failed);
        }
        self.enclaves.call(id, input, out)
    }

    /// Fails exactly where the call is listed.
    fn stop(&mut self, id: ReplicaId) -> Result<(), FieldFault>
        requires { IsSome (map_of self.old.running id) }
        ensures stops { WhereTold (Some (map_of self.old.running)) (Some (map_of self.new.running)) (λ was now. Outcome result was now id (now id ≡ None)) }
        ensures gives { Gains None None [] }
        ensures cause { HasCauseAt FieldFault.Failed self.old.faults self.new.faults result }
        ensures listed { (result ≡ Err FieldFault.Failed) ↔ IsTrue (is_listed self.old.failing self.old.calls) }
        ensures counted { self.new ≡ record (counted self.old) { running = self.new.running } }
    {
        if self.fails() {
            return Err(FieldFault::Failed);
        }
        self.enclaves.stop(id)
    }
}
