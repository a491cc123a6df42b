//! What serves the frames of the source.
ghost use Rattle.std.specs.Prelude.{◌≡◌, ◌≢◌, ◌≤◌, IfSome};
ghost use Rattle.byte_streams.specs.Causes.{Rose};
ghost use Rattle.values.specs.declared.entry.Point.{Point};
ghost use Rattle.replica_model.specs.Linked.{sha_link};
ghost use Rattle.replica_model.specs.Replica.{Named};
ghost use Rattle.trace_model.specs.Session.{untagged, tagged_by, IsMapFor};
ghost use Rattle.link_tags.specs.Hmac.{hmac_of};
ghost use Rattle.enclave_host.specs.Words.{wording};
ghost use Rattle.svr2_run.specs.Sessions as spec;
ghost use Rattle.svr2_run.specs.Sessions.{ServesOver};

use crate::exit::Status;
use replica_server::{Served, serve_session, serve_tagged};
use std::alloc::Global;
use svr_base::{Sink, Source};

fn status_served(served: Served) -> Status
    ensures { result ≡ spec.status_of served }
{
    match served {
        Served::Done => Status::Done,
        Served::Memory => Status::Memory,
        Served::ReadFault => Status::ReadFault,
        Served::WriteFault => Status::WriteFault,
        Served::Frame { .. } => Status::Frame,
        Served::Limit => Status::Limit,
    }
}

/// Serves a session over the source and the sink.
pub fn serve<S: Source, K: Sink>(alloc: Global, source: &mut S, sink: &mut K) -> Status
    ensures serves { IfSome (S.left source.old) (λ all. (names : Point → Named) → IsMapFor wording untagged sha_link names all
        → ServesOver untagged names all (S.left source.new) (K.taken sink.old) (K.taken sink.new) result) }
    ensures served { (result ≢ Status.Usage) × (result ≢ Status.Schedule) × (result ≢ Status.FieldFault) }
    ensures never_refused { result ≢ Status.Refused }
    ensures read_cause { result ≡ Status.ReadFault → Rose (S.faults source.old) (S.faults source.new) }
    ensures write_cause { result ≡ Status.WriteFault → Rose (K.faults sink.old) (K.faults sink.new) }
    ensures read_later { S.faults source.old ≤ S.faults source.new }
    ensures write_later { K.faults sink.old ≤ K.faults sink.new }
{
    status_served(serve_session(alloc, source, sink))
}

/// Serves a tagged session over the source and the sink.
pub fn tagged<S: Source, K: Sink>(
    alloc: Global,
    key: [u8; 32],
    source: &mut S,
    sink: &mut K,
) -> Status
    ensures serves { IfSome (S.left source.old) (λ all. (names : Point → Named) → IsMapFor wording (tagged_by (hmac_of key)) sha_link names all
        → ServesOver (tagged_by (hmac_of key)) names all (S.left source.new) (K.taken sink.old) (K.taken sink.new) result) }
    ensures served { (result ≢ Status.Usage) × (result ≢ Status.Schedule) × (result ≢ Status.FieldFault) }
    ensures never_refused { result ≢ Status.Refused }
    ensures read_cause { result ≡ Status.ReadFault → Rose (S.faults source.old) (S.faults source.new) }
    ensures write_cause { result ≡ Status.WriteFault → Rose (K.faults sink.old) (K.faults sink.new) }
    ensures read_later { S.faults source.old ≤ S.faults source.new }
    ensures write_later { K.faults sink.old ≤ K.faults sink.new }
{
    status_served(serve_tagged(alloc, key, source, sink))
}
