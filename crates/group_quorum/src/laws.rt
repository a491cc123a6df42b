//! What quorums share.

ghost use Rattle.group_quorum.specs.Sharing.{QuorumsShare, QuorumsOutlast, CountsOverlap, MoreMeet, VotersDecide};

/// The law that any two quorums of one configuration share more than twice its margin of voters. It does nothing.
pub fn quorums_share()
    ensures { QuorumsShare }
{}

/// The law that any two quorums of one configuration share a voter that is not lost, where at most twice the margin of
/// the voters are. It does nothing.
pub fn quorums_outlast()
    ensures { QuorumsOutlast }
{}

/// The law that some voter passes two tests which together count more voters than there are. It does nothing.
pub fn counts_overlap()
    ensures { CountsOverlap }
{}

/// The law that a quorum stays one where more voters pass. It does nothing.
pub fn more_meet()
    ensures { MoreMeet }
{}

/// The law that a configuration is met or not by what its voters pass alone. It does nothing.
pub fn voters_decide()
    ensures { VotersDecide }
{}
