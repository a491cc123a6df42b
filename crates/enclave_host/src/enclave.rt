//! An enclave as its host sees it.
ghost use Rattle.std.specs.Prelude.{◌≡◌, ◌≢◌, ◌++◌, ◌↔◌, Ok, Err, IfOk, OnOk};
ghost use Rattle.host_inputs.specs.declared.input.HostFault.{HostFault};
ghost use Rattle.host_msgs.specs.Again.{IsReadAgain};
ghost use Rattle.host_msgs.specs.Batches.{batch_in};
ghost use Rattle.replica_model.specs.Replica.{Named};
ghost use Rattle.group_model.specs.Enclave as model;
ghost use Rattle.trace_model.specs.Session.{Content};
ghost use Rattle.enclave_host.specs.Words.{wording};
ghost use Rattle.enclave_host.specs.Standing.{StandsFor, IsSpent, HoldsOn};
ghost use Rattle.enclave_host.specs.Handing.{handed, IsNamedFor, IsNoRoll};
ghost use Rattle.enclave_host.specs.Answers.{StartsBy, CallAnswers, fault_of};

use crate::running::Running;
use crate::start::begun;
use host_inputs::{HostFault, read_host};
use std::alloc::Global;
use std::marker::Model;
use values::Memory;

/// A replica with its links and the states that its host saved. Contracts see what it keeps, and say for which enclaves
/// of the model it stands.
#[derive(Drop)]
pub struct Enclave {
    // `None` once a call wanted memory: then it is spent.
    pub(crate) state: Option<Running>,
}

/// Why an enclave did not do what it was told: the first of these that holds, in this order.
#[derive(Clone, Copy, Debug, PartialEq, Eq)]
pub enum EnclaveFault {
    /// Memory ran out. An enclave that was called is spent.
    Memory,
    /// The enclave is spent: memory ran out in an earlier call.
    Spent,
    /// The content says nothing, and this is why; memory that ran out is no such reason.
    Frame(HostFault),
    /// The content starts no enclave.
    NotBegun,
    /// The content starts an enclave, and this one runs.
    BegunAgain,
}

impl From<HostFault> for EnclaveFault {
    ghost use Rattle.enclave_host.specs.Answers.{fault_of};

    ghost from_gives = { λ fault found. found ≡ fault_of fault };

    fn from(fault: HostFault) -> EnclaveFault {
        match fault {
            HostFault::Memory => EnclaveFault::Memory,
            fault => EnclaveFault::Frame(fault),
        }
    }
}

impl From<Memory> for EnclaveFault {
    ghost use Rattle.enclave_host.specs.declared.enclave.EnclaveFault.TheVariants as fault;

    ghost from_gives = { λ _ found. found ≡ fault.Memory };

    fn from(_memory: Memory) -> EnclaveFault {
        EnclaveFault::Memory
    }
}

impl Model for Enclave {
    ghost use Rattle.std.specs.Prelude.{Option, IfSome};
    ghost use Rattle.enclave_host.specs.declared.running.Running.{Running};

    ghost Value = { Option Running };

    ghost use Rattle.enclave_host.specs.Standing.{IsSound};

    ghost view = { λ e. e.state };

    ghost invariant = { λ e. IfSome e.state IsSound };
}

impl Enclave {
    /// The enclave that a content starts. Its first state is state 0.
    ///
    /// `Frame` comes where the content says nothing, and `NotBegun` where it says anything but a Begin or a Learn.
    #[tactic(auto, using(crate::proofs::Answered::start_faulty, crate::proofs::Answered::start_answered, crate::proofs::Runs::enclave_not_spent))]
    pub fn start(alloc: Global, hello: &[u8]) -> Result<Enclave, EnclaveFault>
        ensures exact { StartsBy result (wording.content_of hello.now) }
        ensures fresh { IfOk result (λ enclave. ¬ (IsSpent enclave)) }
    {
        let input = read_host(alloc, hello)?;
        begun(alloc, &input)
    }

    /// Hands a content to the enclave, and appends the batch that it leaves.
    ///
    /// After `Memory` it is spent, and `Spent` comes exactly where it was spent. `Frame` comes where the content says
    /// nothing, and `BegunAgain` where it says a Begin or a Learn; these change nothing. A link frame that is not taken
    /// and a state that does not stand are no faults: they are told as refusals.
    pub fn call(&mut self, input: &[u8], out: &mut Vec<u8>) -> Result<(), EnclaveFault>
        ensures spent { (result ≡ Err EnclaveFault.Spent) ↔ IsSpent self.old }
        ensures exact { ¬ (IsSpent self.old) → CallAnswers result (wording.content_of input.now) }
        // It does what the model's enclave does, and tells that.
        ensures model { (e : model.Enclave) (names : Named) (content : Content)
            → StandsFor self.old e → wording.content_of input.now ≡ Ok content → IsNamedFor names e content
            → OnOk result (StandsFor self.new (handed names e content).enclave
            × (out.new.items ≡ out.old.items ++ wording.batch_bytes (handed names e content).enclave.replica.me (handed names e content).call.batch)) }
        // A host that reads these bytes gets this batch, with the frames of its messages.
        ensures again { (e : model.Enclave) (names : Named) (content : Content)
            → StandsFor self.old e → wording.content_of input.now ≡ Ok content → IsNamedFor names e content
            → OnOk result (IsReadAgain (handed names e content).enclave.replica.me (handed names e content).call.batch
            (batch_in (wording.batch_bytes (handed names e content).enclave.replica.me (handed names e content).call.batch))) }
        ensures unchanged { (fault : EnclaveFault) → result ≡ Err fault → fault ≢ EnclaveFault.Memory
            → (self.new ≡ self.old) × (out.new.items ≡ out.old.items) }
        ensures memory { result ≡ Err EnclaveFault.Memory → IsSpent self.new × (out.new.items ≡ out.old.items) }
        ensures goes_on { OnOk result (¬ (IsSpent self.new)) }
        // Who holds a log never holds nothing again, but by a state that is put back.
        ensures holds { (content : Content) → wording.content_of input.now ≡ Ok content → IsNoRoll content
            → OnOk result (HoldsOn self.old self.new) }
    {
        let Some(running) = &mut self.state else {
            return Err(EnclaveFault::Spent);
        };
        let called = running.call(input, out);
        if let Err(EnclaveFault::Memory) = called {
            spend(&mut self.state);
        }
        called
    }
}

/// Gives up what a spent enclave kept, apart from a call that goes well, which so takes no room for it.
#[inline(never)]
fn spend(state: &mut Option<Running>)
    ensures { state.new ≡ None }
{
    *state = None;
}
