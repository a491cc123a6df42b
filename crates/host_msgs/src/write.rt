//! Writing a batch.

ghost use Rattle.std.specs.Prelude.{◌≡◌, ◌++◌, All, IfSome, OnOk, OnErr};
ghost use Rattle.group_quorum.specs.Voters.{IsId};
ghost use Rattle.group_msgs.specs.Ranges.{IsInRange};
ghost use Rattle.group_msgs.specs.Batches.{IsBatchInRange};
ghost use Rattle.fixed_fields.specs.Written.{Puts};
ghost use Rattle.host_msgs.specs.Again.{IsSentItem, IsInGrammar, IsReadAgain};
ghost use Rattle.host_msgs.specs.Batches.{batch_in};
ghost use Rattle.host_msgs.specs.Needs.{IsShort, AreShort};
ghost use Rattle.host_msgs.specs.Contents.{batch_bytes, standing_bytes, doing_bytes, hosting_bytes, each, sent_content};
ghost use Rattle.host_msgs.specs.Parts.{IsStanding, IsDoing, IsHosting};

use crate::content::{push_item, push_items, push_once};
use crate::contents::Frame;
use crate::kinds::item;
use crate::laws::batches_are_read_again;
use fixed_fields::Writer;
use std::alloc::Global;
use std::mem;
use values::{Batch, Memory, PeerMsg, ReplicaId};

/// Appends the items of a batch that this replica leaves. They are read again as that batch, with the frames of its
/// messages. After `Memory` the bytes are as before. An item that four bytes cannot count is answered as want of memory:
/// no batch of a replica has one.
pub fn write_batch(
    alloc: Global,
    me: ReplicaId,
    batch: &Batch,
    out: &mut Vec<u8>,
) -> Result<(), Memory>
    requires id { IsId me }
    requires range { IsBatchInRange batch.now }
    ensures ok { OnOk result (out.new.items ≡ out.old.items ++ batch_bytes me batch.now) }
    ensures again { OnOk result (IsReadAgain me batch.now (batch_in (batch_bytes me batch.now))) }
    ensures err { OnErr result (out.new.items ≡ out.old.items) }
{
    batches_are_read_again();
    let mut writer = Writer::behind(mem::replace(out, Vec::new(alloc)));
    match push_batch(alloc, me, batch, &mut writer) {
        Ok(()) => {
            *out = writer.finish();
            Ok(())
        }
        Err(memory) => {
            *out = writer.undo();
            Err(memory)
        }
    }
}

fn push_batch(alloc: Global, me: ReplicaId, batch: &Batch, out: &mut Writer) -> Result<(), Memory>
    requires id { IsId me }
    requires range { IsBatchInRange batch.now }
    ensures puts { Puts result out.old out.new (batch_bytes me batch.now) }
    ensures grammar { OnOk result (IsInGrammar me batch.now) }
    ensures short { OnOk result (AreShort me batch.now) }
{
    push_standing(alloc, batch, out)?;
    push_doing(alloc, me, batch, out)?;
    push_hosting(alloc, batch, out)
}

/// What the replica says of itself.
fn push_standing(alloc: Global, batch: &Batch, out: &mut Writer) -> Result<(), Memory>
    requires { IsBatchInRange batch.now }
    ensures puts { Puts result out.old out.new (standing_bytes batch.now) }
    ensures says { OnOk result (IsStanding batch.now) }
{
    push_once(alloc, out, item::LEAD, &batch.lead)?;
    push_items(alloc, out, item::MEMBERS, batch.members.as_slice())?;
    push_once(alloc, out, item::HALT, &batch.halt)?;
    push_once(alloc, out, item::TAKEN, &batch.taken)
}

/// What it did since.
fn push_doing(alloc: Global, me: ReplicaId, batch: &Batch, out: &mut Writer) -> Result<(), Memory>
    requires id { IsId me }
    requires range { IsBatchInRange batch.now }
    ensures puts { Puts result out.old out.new (doing_bytes me batch.now) }
    ensures says { OnOk result (IsDoing me batch.now) }
{
    push_items(alloc, out, item::COMMIT, batch.commits.as_slice())?;
    push_items(alloc, out, item::ANSWER, batch.answers.as_slice())?;
    push_sent(alloc, out, me, batch.sent.as_slice())
}

/// What came of its host's word.
fn push_hosting(alloc: Global, batch: &Batch, out: &mut Writer) -> Result<(), Memory>
    requires { IsBatchInRange batch.now }
    ensures puts { Puts result out.old out.new (hosting_bytes batch.now) }
    ensures says { OnOk result (IsHosting batch.now) }
{
    push_once(alloc, out, item::SAVED, &batch.saved)?;
    push_once(alloc, out, item::REFUSED, &batch.refused)
}

fn push_sent(
    alloc: Global,
    out: &mut Writer,
    me: ReplicaId,
    sent: &[(ReplicaId, PeerMsg)],
) -> Result<(), Memory>
    requires id { IsId me }
    requires range { All (λ s. IsId s.0 × IsInRange s.1) sent.now }
    ensures puts { Puts result out.old out.new (each 7 (sent_content me) sent.now) }
    ensures grammar { OnOk result (All (IsSentItem me) sent.now) }
    ensures short { OnOk result (All (λ s. IsShort (sent_content me s)) sent.now) }
{
    for (to, message) in sent {
        let frame = Frame {
            from: me,
            to: *to,
            message,
        };
        push_item(alloc, out, item::SENT, &frame)?;
    }
    Ok(())
}
