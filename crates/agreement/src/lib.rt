//! Two paths whose every place was promised by a quorum never differ.
//!
//! The quorum of a place is one of the configuration just before it, so the law holds across changes of the voters
//! and of the margin. Two quorums of one configuration share a voter that was never rolled back, and it promises
//! along one path.
#![tactic(auto)]

ghost use Rattle.std.specs.Prelude.{ℕ, Bool};
ghost use Rattle.group_quorum.specs.Conf.{Conf};
ghost use Rattle.replica_model.specs.Path.{Path};
ghost use Rattle.agreement.specs.Promised.{EachPlacePromised, IsComparable, KeepsToOnePath};

use group_quorum::{counts_overlap, quorums_outlast};

/// What a history says of who promised what.
pub trait History {
    /// The replica ever promised the path, or a longer one that begins with it.
    ghost Ever: { ℕ → Path → Type 0 };
}

/// The law that two paths whose every place was promised never differ, where all promises keep to one path. It only
/// names the laws of quorums.
pub fn promised_paths_agree<H: History>()
    ensures { (first : Conf) (rolled : ℕ → Bool) → KeepsToOnePath first rolled H.Ever → (p q : Path) → EachPlacePromised first H.Ever p → EachPlacePromised first H.Ever q → IsComparable p q }
{
    quorums_outlast();
    counts_overlap();
}
