//! The serving of a session.
ghost use Rattle.std.specs.Prelude.{◌≡◌, ◌≢◌, ◌≤◌, ◌++◌, ℕ, List, IfSome};
ghost use Rattle.std.specs.Io.KnownBytes.{Appends, Consumes};
ghost use Rattle.byte_streams.specs.Causes.{Rose};
ghost use Rattle.replica_model.specs.Linked.{sha_link};
ghost use Rattle.replica_model.specs.Replica.{Named};
ghost use Rattle.values.specs.declared.entry.Point.{Point};
ghost use Rattle.link_tags.specs.Hmac.{hmac_of};
ghost use Rattle.trace_model.specs.Session.{untagged, tagged_by, IsMapFor};
ghost use Rattle.enclave_host.specs.Words.{wording};
ghost use Rattle.replica_server.specs.Serving.{ServedOver};
ghost use Rattle.replica_server.specs.Turning.{Spot, SoFar, EndsSo};
ghost use Rattle.trace_model.specs.Session.{Tagging};
ghost use Rattle.values.specs.declared.limits.TheConstants.{MAX_FRAMES};

use crate::served::Served;
use crate::server::Server;
use crate::tags::{Tags, Untagged};
use byte_streams::{Sink, Source};
use link_tags::{Side, TagEnd};
use std::alloc::Global;
use values::MAX_FRAMES;

/// Serves a session: one enclave, to which a host sends frames and which answers each with a batch frame, written before
/// the next frame is read. Reads no byte ahead, and keeps one buffer for the frames and one for the answers.
///
/// Want of memory is the one free end.
pub fn serve_session<S: Source, K: Sink>(alloc: Global, source: &mut S, sink: &mut K) -> Served
    // How it ended over a source that tells, by every map from points to paths that is one for its bytes.
    ensures ends { IfSome (S.left source.old) (λ all. (names : Point → Named) → IsMapFor wording untagged sha_link names all
        → ServedOver untagged names all (S.left source.new) (K.taken sink.old) (K.taken sink.new) result) }

    // A fault has its cause, and no count falls.
    ensures read_cause { result ≡ Served.ReadFault → Rose (S.faults source.old) (S.faults source.new) }
    ensures write_cause { result ≡ Served.WriteFault → Rose (K.faults sink.old) (K.faults sink.new) }
    ensures read_later { S.faults source.old ≤ S.faults source.new }
    ensures write_later { K.faults sink.old ≤ K.faults sink.new }
{
    serve(alloc, Untagged, source, sink)
}

/// Serves a tagged session: as [`serve_session`], where each frame and each batch frame ends with a tag of 32 bytes under
/// this key. A frame with another tag than that of its number and content is a bad one.
pub fn serve_tagged<S: Source, K: Sink>(
    alloc: Global,
    key: [u8; 32],
    source: &mut S,
    sink: &mut K,
) -> Served
    ensures ends { IfSome (S.left source.old) (λ all. (names : Point → Named) → IsMapFor wording (tagged_by (hmac_of key)) sha_link names all
        → ServedOver (tagged_by (hmac_of key)) names all (S.left source.new) (K.taken sink.old) (K.taken sink.new) result) }

    // A fault has its cause, and no count falls.
    ensures read_cause { result ≡ Served.ReadFault → Rose (S.faults source.old) (S.faults source.new) }
    ensures write_cause { result ≡ Served.WriteFault → Rose (K.faults sink.old) (K.faults sink.new) }
    ensures read_later { S.faults source.old ≤ S.faults source.new }
    ensures write_later { K.faults sink.old ≤ K.faults sink.new }
{
    serve(alloc, TagEnd::new(key, Side::Enclave), source, sink)
}

/// Serves frame by frame, with these tags.
fn serve<T: Tags + Drop, S: Source, K: Sink>(
    alloc: Global,
    tags: T,
    source: &mut S,
    sink: &mut K,
) -> Served
    requires stands { T.stands tags 0 0 }
    ensures ends { (read : List ℕ) × Consumes (S.left source.old) (S.left source.new) read
        × (written : List ℕ) × Appends (K.taken sink.old) (K.taken sink.new) written
        × EndsSo (T.tagging tags) read written (S.left source.new) result }
    ensures read_cause { result ≡ Served.ReadFault → Rose (S.faults source.old) (S.faults source.new) }
    ensures write_cause { result ≡ Served.WriteFault → Rose (K.faults sink.old) (K.faults sink.new) }
    ensures read_later { S.faults source.old ≤ S.faults source.new }
    ensures write_later { K.faults sink.old ≤ K.faults sink.new }
{
    let mut server = Server {
        alloc,
        tags,
        enclave: None,
        at: 0,
        number: 0,
        frame: Vec::new(alloc),
        out: Vec::new(alloc),
    };
    while server.number < MAX_FRAMES {
        if let Err(end) = server.turn(source, sink) {
            return end;
        }
    }
    behind_last(source)
}

/// How serving ends behind the greatest number of frames.
fn behind_last<S: Source>(source: &mut S) -> Served
    ensures ends { (tagging : Tagging) (read written : List ℕ) (s : Spot) → SoFar tagging read written s → s.number ≡ MAX_FRAMES
        → (more : List ℕ) × Consumes (S.left source.old) (S.left source.new) more × EndsSo tagging (read ++ more) written (S.left source.new) result }
    ensures read_cause { result ≡ Served.ReadFault → Rose (S.faults source.old) (S.faults source.new) }
    ensures no_write { result ≢ Served.WriteFault }
    ensures read_later { S.faults source.old ≤ S.faults source.new }
{
    let mut byte = [0; 1];
    let Ok(count) = source.read(&mut byte) else {
        return Served::ReadFault;
    };
    if count == 0 {
        return Served::Done;
    }
    Served::Limit
}
