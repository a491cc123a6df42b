//! The answer to one frame.
ghost use Rattle.std.specs.Prelude.{◌≡◌, ◌+◌, ◌++◌, ◌<◌, ◌≤◌, ℕ, List, None, Option, length, drop, OnOk};
ghost use Rattle.std.specs.Int.{w32, to_be_bytes};
ghost use Rattle.values.specs.declared.entry.Point.{Point};
ghost use Rattle.replica_model.specs.Replica.{Named};
ghost use Rattle.group_model.specs.Enclave as model;
ghost use Rattle.trace_model.specs.Session.{Tagging};
ghost use Rattle.replica_server.specs.Standing.{Stands, IfByMap};
ghost use Rattle.replica_server.specs.Answering.{Hands, Answers};

use crate::tags::Tags;
use enclave_host::{Enclave, EnclaveFault};
use host_inputs::HostFault;
use std::alloc::{AllocError, Global};
use values::{MAX_BATCH, Memory, TOP};

/// Why a whole frame got no answer: the first of these that holds, in this order, but for want of memory.
#[derive(Clone, Copy, Debug, PartialEq, Eq)]
pub(crate) enum Unanswered {
    Memory,
    /// The tag is not that of the frame.
    Tag,
    /// The content says nothing.
    Content(HostFault),
    /// The first content starts no enclave.
    NotBegun,
    /// A later one starts an enclave.
    BegunAgain,
    /// The batch content is too long.
    Limit,
}

impl From<EnclaveFault> for Unanswered {
    ghost use Rattle.replica_server.specs.Unanswering.{of_fault};

    ghost from_gives = { λ fault found. found ≡ of_fault fault };

    fn from(fault: EnclaveFault) -> Unanswered {
        match fault {
            EnclaveFault::Memory | EnclaveFault::Spent => Unanswered::Memory,
            EnclaveFault::Frame(fault) => Unanswered::Content(fault),
            EnclaveFault::NotBegun => Unanswered::NotBegun,
            EnclaveFault::BegunAgain => Unanswered::BegunAgain,
        }
    }
}

impl From<AllocError> for Unanswered {
    ghost use Rattle.replica_server.specs.declared.answer.Unanswered.TheVariants as unanswered;

    ghost from_gives = { λ _ found. found ≡ unanswered.Memory };

    fn from(_memory: AllocError) -> Unanswered {
        Unanswered::Memory
    }
}

impl From<Memory> for Unanswered {
    ghost use Rattle.replica_server.specs.declared.answer.Unanswered.TheVariants as unanswered;

    ghost from_gives = { λ _ found. found ≡ unanswered.Memory };

    fn from(_memory: Memory) -> Unanswered {
        Unanswered::Memory
    }
}

/// Checks the tag of the frame of this number, hands its content to the enclave, and leaves the batch frame in `out`.
pub(crate) fn answer<T: Tags>(
    alloc: Global,
    tags: &mut T,
    number: u64,
    enclave: &mut Option<Enclave>,
    content: &[u8],
    tag: &[u8],
    out: &mut Vec<u8>,
) -> Result<(), Unanswered>
    requires count { number < TOP }
    requires size { length tag.now ≡ (T.tagging tags.old).size }
    requires stands { T.stands tags.old number number }
    ensures same { T.tagging tags.new ≡ T.tagging tags.old }
    ensures goes_on { OnOk result (T.stands tags.new (number + 1) (number + 1)) }
    ensures answers { (names : Point → Named) (before : Option model.Enclave) → Stands enclave.old before → IfByMap names before
        → Answers (T.tagging tags.old) names before content.now number tag.now enclave.new out.new.items result }
{
    if !tags.check(number, content, tag) {
        return Err(Unanswered::Tag);
    }
    out.clear();
    out.extend_from_slice(&[0; 4])?;
    if let Err(why) = hand(alloc, enclave, content, out) {
        return Err(Unanswered::from(why));
    }
    // An enclave only appends: this is never so.
    let Some(size) = out.len().checked_sub(4) else {
        return Err(Unanswered::Memory);
    };
    if size > MAX_BATCH as usize {
        return Err(Unanswered::Limit);
    }
    put_length(size as u32, out.as_mut_slice());
    tags.push_tag(number, out, 4)?;
    Ok(())
}

/// Puts the length of what follows into the first bytes.
fn put_length(size: u32, out: &mut [u8])
    requires { 4 ≤ length out.old }
    ensures { out.new ≡ to_be_bytes w32 size ++ drop 4 out.old }
{
    out[..4].copy_from_slice(&size.to_be_bytes());
}

/// Hands a content to the enclave, and appends the batch that it leaves. The first content starts the enclave, whose batch
/// has no bytes.
fn hand(
    alloc: Global,
    enclave: &mut Option<Enclave>,
    content: &[u8],
    out: &mut Vec<u8>,
) -> Result<(), EnclaveFault>
    ensures hands { (tagging : Tagging) (names : Point → Named) (before : Option model.Enclave) → Stands enclave.old before → IfByMap names before
        → Hands tagging names before content.now enclave.new out.old.items out.new.items result }
{
    match enclave {
        Some(running) => running.call(content, out),
        None => begin(alloc, enclave, content),
    }
}

/// Starts the enclave by the first content, apart from a later call, which so takes no room for an enclave that is started.
#[inline(never)]
fn begin(alloc: Global, enclave: &mut Option<Enclave>, content: &[u8]) -> Result<(), EnclaveFault>
    requires none { enclave.old ≡ None }
    ensures hands { (tagging : Tagging) (names : Point → Named) (before : Option model.Enclave) (out : List ℕ) → Stands enclave.old before
        → Hands tagging names before content.now enclave.new out out result }
{
    match Enclave::start(alloc, content) {
        Ok(started) => {
            *enclave = Some(started);
            Ok(())
        }
        Err(why) => Err(why),
    }
}
