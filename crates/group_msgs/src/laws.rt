//! What is written is read again.

ghost use Rattle.std.specs.Prelude.{◌≡◌, Ok};
ghost use Rattle.values.specs.declared.peer.PeerMsg.{PeerMsg};
ghost use Rattle.group_msgs.specs.Canonical.{canonical_peer};
ghost use Rattle.group_msgs.specs.Peer.{peer_of};
ghost use Rattle.group_msgs.specs.Ranges.{IsInRange, FitsPeer};

/// The canonical bytes of a message in its ranges stand for that message.
pub fn messages_are_read_again()
    ensures { (msg : PeerMsg) → IsInRange msg → FitsPeer msg → peer_of (canonical_peer msg) ≡ Ok msg }
{}
