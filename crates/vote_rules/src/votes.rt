//! The votes of a candidate.
ghost use Rattle.std.specs.Prelude.{◌≡◌, ◌+◌, ◌≤◌, ◌<◌, [], ◌∷◌, nat_lt, length};
ghost use Rattle.std.specs.List.{position_or_len};
ghost use Rattle.arrayvec.specs.ArrayVec.{array_vec_len};
ghost use Rattle.replica_model.specs.Peers.{with_id, united};
ghost use Rattle.vote_rules.specs.Elections.{voters_by, counted, is_won};
ghost use Rattle.vote_rules.specs.declared.votes.TheConstants.{MOST};

use arrayvec::ArrayVec;
use group_quorum::MAX_VOTERS;
use replica_log::Configs;
use values::ReplicaId;

/// The voters of two configurations, at most.
const MOST: usize = 2 * MAX_VOTERS;

/// The ids whose votes a candidate has and counts, in rising order. Contracts see the list of them.
#[derive(Clone, Copy, Debug)]
pub struct Votes {
    ids: [ReplicaId; MOST],
    count: usize,
    ghost within: { count ≤ MOST },
}

impl Votes {
    ghost use Rattle.replica_model.specs.Replica.{Replica};
    ghost use Rattle.replica_model.specs.Votes.{is_elected, with_vote};
    ghost use Rattle.vote_rules.specs.Elections.{CountsBy};
    ghost use Rattle.vote_rules.specs.Candidates.{ids_of};

    /// The vote of the candidate itself.
    pub fn new(me: ReplicaId) -> Votes
        ensures { ids_of result ≡ me ∷ [] }
    {
        let mut ids = [0; MOST];
        ids[0] = me;
        Votes { ids, count: 1 }
    }

    /// Counts a vote where it is that of a voter of the newest configuration or, while that one is above the committed
    /// index, of the older, and answers whether the election is won then. An id counts once.
    pub fn count_vote(&mut self, from: ReplicaId, configs: &Configs, committed: u64) -> bool
        ensures votes { ids_of self.new ≡ counted configs.now committed (ids_of self.old) from }
        ensures won { result ≡ is_won configs.now committed (ids_of self.new) }
        ensures model { (s : Replica) → CountsBy s configs.now committed
            → (ids_of self.new ≡ with_vote s (ids_of self.old) from) × (result ≡ is_elected s (ids_of self.new)) }
    {
        let before = *self;
        let had = before.ids();
        let mut voters = voters_by(configs, committed);
        voters.retain(|voter| *voter == from || had.contains(voter));
        *self = Votes::of(voters.as_slice());
        self.win(configs, committed)
    }

    /// Whether these votes win the election: they are a quorum of the newest configuration and, while that one is above
    /// the committed index, one of the older.
    pub fn win(&self, configs: &Configs, committed: u64) -> bool
        ensures won { result ≡ is_won configs.now committed (ids_of self.now) }
        ensures model { (s : Replica) → CountsBy s configs.now committed → result ≡ is_elected s (ids_of self.now) }
    {
        let ids = self.ids();
        configs.newest.met(ids) && (configs.newest_index <= committed || configs.older.met(ids))
    }

    /// The votes of these ids.
    fn of(voters: &[ReplicaId]) -> Votes
        requires { length voters.now ≤ MOST }
        ensures { ids_of result ≡ voters.now }
    {
        let mut ids = [0; MOST];
        ids[..voters.len()].copy_from_slice(voters);
        Votes {
            ids,
            count: voters.len(),
        }
    }

    fn ids(&self) -> &[ReplicaId]
        ensures { result.now ≡ ids_of self.now }
    {
        &self.ids[..self.count]
    }
}

/// The voters that count, in rising order: those of the newest configuration and, while that one is above the committed
/// index, those of the older.
fn voters_by(configs: &Configs, committed: u64) -> ArrayVec<ReplicaId, MOST>
    ensures { result.items ≡ voters_by configs.now committed }
{
    let mut ids = ArrayVec::new();
    for voter in configs.newest.voters() {
        ids.push(*voter);
    }
    if configs.newest_index > committed {
        unite(&mut ids, configs.older.voters());
    }
    ids
}

/// Puts each of these ids at its place among rising ones.
fn unite(ids: &mut ArrayVec<ReplicaId, MOST>, more: &[ReplicaId])
    requires { array_vec_len ids.old + length more.now ≤ MOST }
    ensures { ids.new.items ≡ united more.now ids.old.items }
{
    for id in more.iter().rev() {
        insert(ids, *id);
    }
}

/// Puts an id at its place among rising ones, where it is not among them.
fn insert(ids: &mut ArrayVec<ReplicaId, MOST>, id: ReplicaId)
    requires { array_vec_len ids.old < MOST }
    ensures ids { ids.new.items ≡ with_id id ids.old.items }
    ensures count { array_vec_len ids.new ≤ array_vec_len ids.old + 1 }
{
    if !ids.contains(&id) {
        let place = place_of(ids.as_slice(), id);
        ids.insert(place, id);
    }
}

/// The first place of an id above this one; the end where there is none.
fn place_of(ids: &[ReplicaId], id: ReplicaId) -> usize
    ensures place { result ≡ position_or_len (λ other. nat_lt id other) ids.now }
    ensures within { result ≤ length ids.now }
{
    for (place, other) in ids.iter().enumerate() {
        if *other > id {
            return place;
        }
    }
    ids.len()
}
