//! What a link frame says to an enclave.
ghost use Rattle.std.specs.Prelude.{◌≡◌, IsTrue, OnOk};
ghost use Rattle.group_msgs.specs.Batches.{IsBatchInRange};
ghost use Rattle.replica_model.specs.Call.{empty_batch};
ghost use Rattle.replica_model.specs.Clients.{offset_of};
ghost use Rattle.replica_model.specs.Replica.{Named};
ghost use Rattle.attested_link.specs.Links.{is_linked};
ghost use Rattle.group_model.specs.Enclave.{Enclave};
ghost use Rattle.trace_model.specs.Session.{read_message, Frames, untagged};
ghost use Rattle.enclave_host.specs.Words.{told_offset, message_of, wording};
ghost use Rattle.enclave_host.specs.Standing.{RunsFor, Becomes, IsSound, KeepsLog};
ghost use Rattle.enclave_host.specs.Handing.{handed, heard, link_refusal, read_from, IsNamedIn, IsNamedFor};

use crate::running::Running;
use attested_link::LinkFault;
use group_msgs::{PeerFault, read_peer};
use proto_wire::WireFault;
use replica_core::Input;
use values::{Batch, Memory, Refusal, ReplicaId};

impl Running {
    /// Takes in a link frame, or refuses it.
    pub fn hear(&mut self, frame: &[u8], batch: &mut Batch) -> Result<(), Memory>
        requires sound { IsSound self.old }
        requires empty { batch.old ≡ empty_batch }
        ensures sound { OnOk result (IsSound self.new) }
        ensures model { (e : Enclave) (names : Named) → RunsFor self.old e → IsNamedFor names e (Frames frame.now)
            → OnOk result (Becomes self.new batch.new (handed names e (Frames frame.now))) }
        ensures in_range { OnOk result (IsBatchInRange batch.new) }
        ensures holds { OnOk result (KeepsLog self.old self.new) }
    {
        let me = self.replica.id().unwrap();
        match self.links.accept_frame(me, frame) {
            Ok((from, message)) => self.hear_from(from, message, batch),
            Err(fault) => {
                batch.refused = Some(link_refusal(fault));
                Ok(())
            }
        }
    }

    /// Takes in a message from one that is linked, or refuses it.
    fn hear_from(
        &mut self,
        from: ReplicaId,
        message: &[u8],
        batch: &mut Batch,
    ) -> Result<(), Memory>
        requires sound { IsSound self.old }
        requires linked { IsTrue (is_linked self.old.links from) }
        requires empty { batch.old ≡ empty_batch }
        ensures sound { OnOk result (IsSound self.new) }
        ensures model { (e : Enclave) (names : Named) → RunsFor self.old e → IsNamedIn names e.replica.role (read_from from message.now)
            → OnOk result (Becomes self.new batch.new (heard names e (read_from from message.now))) }
        ensures in_range { OnOk result (IsBatchInRange batch.new) }
        ensures holds { OnOk result (KeepsLog self.old self.new) }
    {
        match read_peer(self.alloc, message) {
            Ok(msg) => self.step(&Input::Peer { from, msg }, batch),
            Err(PeerFault::Memory) => Err(Memory),
            Err(fault) => {
                batch.refused = Some(Refusal::BadPeer(told_offset(fault)));
                Ok(())
            }
        }
    }
}

/// Why a link frame is refused.
fn link_refusal(fault: LinkFault) -> Refusal
    ensures { result ≡ link_refusal fault }
{
    match fault {
        LinkFault::Short(_) => Refusal::BadPeer(0),
        LinkFault::NotForMe(to) => Refusal::NotForMe(to),
        LinkFault::NoLink(from) => Refusal::NoLink(from),
    }
}

/// The offset that is told of bytes that are no message: of a fault of the wire format where its field stands, else 0.
fn told_offset(fault: PeerFault) -> u64
    ensures { result ≡ told_offset fault }
{
    match fault {
        PeerFault::Wire(fault) => offset_of(fault) as u64,
        _ => 0,
    }
}

/// Where the field of a fault stands.
fn offset_of(fault: WireFault) -> usize
    ensures { result ≡ offset_of fault }
{
    match fault {
        WireFault::Cut(at)
        | WireFault::LongVarint(at)
        | WireFault::FieldZero(at)
        | WireFault::GroupWire(at)
        | WireFault::BadWire(at) => at,
    }
}
