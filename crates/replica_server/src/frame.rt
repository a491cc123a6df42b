//! Reading one frame.
ghost use Rattle.std.specs.Prelude.{◌≡◌, ◌≤◌};
ghost use Rattle.byte_streams.specs.Causes.{HasCauseAt};
ghost use Rattle.replica_server.specs.Reading.{ReadsFrame, ReadsRest};

use crate::fill::fill;
use byte_streams::{Failed, Source};
use std::alloc::AllocError;
use values::MAX_CONTENT;

/// Why no frame was read.
#[derive(Clone, Copy, Debug, PartialEq, Eq)]
pub(crate) enum Unread {
    Memory,
    ReadFault,
    /// The source ends within the frame.
    Cut,
    /// No content has this length.
    Length(u32),
}

impl From<Failed> for Unread {
    ghost use Rattle.replica_server.specs.declared.frame.Unread.TheVariants as unread;

    ghost from_gives = { λ _ found. found ≡ unread.ReadFault };

    fn from(_failed: Failed) -> Unread {
        Unread::ReadFault
    }
}

impl From<AllocError> for Unread {
    ghost use Rattle.replica_server.specs.declared.frame.Unread.TheVariants as unread;

    ghost from_gives = { λ _ found. found ≡ unread.Memory };

    fn from(_memory: AllocError) -> Unread {
        Unread::Memory
    }
}

/// Reads the next frame, whose tag has this size, and no byte behind it. The buffer then holds the content and the tag, and
/// the answer is how long the content is. `None` comes where the source ends before the frame.
pub(crate) fn read_frame<S: Source>(
    tag: usize,
    frame: &mut Vec<u8>,
    source: &mut S,
) -> Result<Option<usize>, Unread>
    requires { tag ≤ 32 }
    ensures reads { ReadsFrame tag (S.left source.old) (S.left source.new) frame.new.items result }
    ensures cause { HasCauseAt Unread.ReadFault (S.faults source.old) (S.faults source.new) result }
{
    let mut head = [0; 4];
    let count = fill(source, &mut head)?;
    if count == 0 {
        return Ok(None);
    }
    if count < 4 {
        return Err(Unread::Cut);
    }
    let length = u32::from_be_bytes(head);
    if length < 1 || MAX_CONTENT < length {
        return Err(Unread::Length(length));
    }
    let size = length as usize;
    match read_rest(size + tag, frame, source) {
        Ok(()) => Ok(Some(size)),
        Err(why) => Err(why),
    }
}

/// Reads so many bytes of a frame that is begun.
fn read_rest<S: Source>(size: usize, rest: &mut Vec<u8>, source: &mut S) -> Result<(), Unread>
    ensures reads { ReadsRest size (S.left source.old) (S.left source.new) rest.new.items result }
    ensures cause { HasCauseAt Unread.ReadFault (S.faults source.old) (S.faults source.new) result }
{
    rest.resize(size, 0)?;
    let count = fill(source, rest.as_mut_slice())?;
    if count < size {
        return Err(Unread::Cut);
    }
    Ok(())
}
