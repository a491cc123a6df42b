//! Where the enclaves of a group run.
ghost use Rattle.std.specs.Prelude.{ℕ, ◌≡◌, List, [], Option, None, IfSome, IsSome};
ghost use Rattle.byte_streams.specs.Causes.{HasCauseAt};
ghost use Rattle.enclave_host.specs.Fields.{Calling, Gains, GivesContent, IsHelloFor, IsInput, Map, Outcome, Starting, WhereTold};

use values::ReplicaId;

/// Why a field did not answer.
#[derive(Clone, Copy, Debug, PartialEq, Eq)]
pub enum FieldFault {
    /// Memory ran out. The enclave of the call does not run any more.
    Memory,
    /// The field failed, and its count of faults rose. No enclave has changed.
    Failed,
}

/// Enclaves that are started, called and stopped.
///
/// Whatever a call answers, every other enclave is as before.
pub trait Field {
    /// The enclaves that run, by their ids, where they are told.
    ghost map: { Self → Option Map };

    /// The contents that its calls answered, where they are told.
    ghost answers: { Self → Option (List (List ℕ)) };

    /// How many faults there were.
    ghost faults: { Self → ℕ };

    /// Starts the enclave of this id, which does not run, by a Begin or a Learn for it.
    fn start(&mut self, id: ReplicaId, hello: &[u8]) -> Result<(), FieldFault>
        requires { IfSome (map self.old) (λ was. (was id ≡ None) × IsHelloFor id hello.now) }
        ensures runs { WhereTold (map self.old) (map self.new) (λ was now. Outcome result was now id (Starting now id hello.now)) }
        ensures gives { Gains (answers self.old) (answers self.new) [] }
        ensures cause { HasCauseAt FieldFault.Failed (faults self.old) (faults self.new) result };

    /// Hands the enclave of this id, which runs, a content that is neither. `out` is cleared, and then holds the batch.
    fn call(&mut self, id: ReplicaId, input: &[u8], out: &mut Vec<u8>) -> Result<(), FieldFault>
        requires { IfSome (map self.old) (λ was. IsSome (was id) × IsInput input.now) }
        ensures steps { WhereTold (map self.old) (map self.new) (λ was now. Outcome result was now id (Calling was now id input.now out.new.items)) }
        ensures gives { GivesContent (answers self.old) (answers self.new) result out.new.items }
        ensures cause { HasCauseAt FieldFault.Failed (faults self.old) (faults self.new) result };

    /// Ends the enclave of this id, which runs.
    fn stop(&mut self, id: ReplicaId) -> Result<(), FieldFault>
        requires { IfSome (map self.old) (λ was. IsSome (was id)) }
        ensures stops { WhereTold (map self.old) (map self.new) (λ was now. Outcome result was now id (now id ≡ None)) }
        ensures gives { Gains (answers self.old) (answers self.new) [] }
        ensures cause { HasCauseAt FieldFault.Failed (faults self.old) (faults self.new) result };
}
