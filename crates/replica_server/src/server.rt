//! A session as it is served, frame by frame.
ghost use Rattle.std.specs.Prelude.{◌≡◌, ◌+◌, ◌*◌, ◌<◌, ◌≤◌, ℕ, List, OnOk, Ok, Err};
ghost use Rattle.byte_streams.specs.Causes.{HasCauseAt};
ghost use Rattle.values.specs.declared.limits.TheConstants.{MAX_FRAMES};
ghost use Rattle.replica_server.specs.Turning.{SoFar, TurnsFrom};
ghost use Rattle.replica_server.specs.Served.{unread, unanswered};

use crate::answer::{Unanswered, answer};
use crate::frame::{Unread, read_frame};
use crate::served::{FrameCause, Served};
use crate::tags::Tags;
use byte_streams::{Sink, Source, write_all};
use enclave_host::Enclave;
use std::alloc::Global;

/// An enclave and the end of its link, with the buffers that are kept from frame to frame.
#[derive(Drop)]
pub(crate) struct Server<T> {
    pub alloc: Global,
    pub tags: T,
    pub enclave: Option<Enclave>,
    /// The offset of the next frame, and its number.
    pub at: u64,
    pub number: u64,
    /// The content of a frame and its tag.
    pub frame: Vec<u8>,
    /// A batch frame.
    pub out: Vec<u8>,
}

impl<T: Tags> Server<T> {
    /// Reads the next frame and writes its batch frame, or tells how serving ended.
    pub fn turn<S: Source, K: Sink>(&mut self, source: &mut S, sink: &mut K) -> Result<(), Served>
        requires count { self.old.number < MAX_FRAMES }
        requires offset { self.old.at ≤ self.old.number * 1_048_612 }
        requires stands { T.stands self.old.tags self.old.number self.old.number }
        ensures turns { (read written : List ℕ)
            → SoFar (T.tagging self.old.tags) read written (record { at = self.old.at; number = self.old.number; enclave = self.old.enclave })
            → TurnsFrom (T.tagging self.old.tags) read written (record { at = self.new.at; number = self.new.number; enclave = self.new.enclave })
            (S.left source.old) (S.left source.new) (K.taken sink.old) (K.taken sink.new) result }
        ensures same { T.tagging self.new.tags ≡ T.tagging self.old.tags }
        ensures number { OnOk result (self.new.number ≡ self.old.number + 1) }
        ensures offset { OnOk result (self.new.at ≤ self.new.number * 1_048_612) }
        ensures stands { OnOk result (T.stands self.new.tags self.new.number self.new.number) }
        ensures read_cause { HasCauseAt Served.ReadFault (S.faults source.old) (S.faults source.new) result }
        ensures write_cause { HasCauseAt Served.WriteFault (K.faults sink.old) (K.faults sink.new) result }
    {
        let size = match read_frame(self.tags.size(), &mut self.frame, source) {
            Ok(Some(size)) => size,
            Ok(None) => return Err(Served::Done),
            Err(why) => return Err(unread(why, self.at)),
        };
        let (content, tag) = self.frame.split_at(size);
        let answered = answer(
            self.alloc,
            &mut self.tags,
            self.number,
            &mut self.enclave,
            content,
            tag,
            &mut self.out,
        );
        if let Err(why) = answered {
            return Err(unanswered(why, self.at, self.number));
        }
        let Ok(()) = write_all(sink, self.out.as_slice()) else {
            return Err(Served::WriteFault);
        };
        self.at += 4 + self.frame.len() as u64;
        self.number += 1;
        Ok(())
    }
}

/// How serving ends where no frame was read.
fn unread(why: Unread, at: u64) -> Served
    ensures { result ≡ unread at why }
{
    let cause = match why {
        Unread::Memory => return Served::Memory,
        Unread::ReadFault => return Served::ReadFault,
        Unread::Cut => FrameCause::Cut,
        Unread::Length(length) => FrameCause::Length(length),
    };
    Served::Frame { at, cause }
}

/// How serving ends where the frame of this number got no answer.
fn unanswered(why: Unanswered, at: u64, number: u64) -> Served
    ensures { result ≡ unanswered at number why }
{
    let cause = match why {
        Unanswered::Memory => return Served::Memory,
        Unanswered::Limit => return Served::Limit,
        Unanswered::Tag => FrameCause::Tag(number),
        Unanswered::Content(fault) => FrameCause::Content(fault),
        Unanswered::NotBegun => FrameCause::NotBegun,
        Unanswered::BegunAgain => FrameCause::BegunAgain,
    };
    Served::Frame { at, cause }
}
