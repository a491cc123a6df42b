//! A candidate's votes: those of the voters of the configurations that it stands under.

ghost use Rattle.std.specs.Prelude.{◌≡◌, [], ◌∷◌};
ghost use Rattle.replica_model.specs.Replica.{Candidate};
ghost use Rattle.replica_model.specs.Votes.{with_vote};
ghost use Rattle.model_rows.specs.Voted.{standing, after_vote_of, removing};

/// A granted vote of an id that is no voter leaves a candidate as it was.
pub fn a_vote_of_no_voter()
    ensures stands { standing.role ≡ Candidate (1 ∷ []) }
    ensures left { after_vote_of 9 ≡ standing }
{}

/// The vote of a voter whose removal is pending is kept, and not that of one whose removal is committed.
pub fn a_vote_of_a_removed_voter()
    ensures pending { with_vote (removing 0) (1 ∷ []) 3 ≡ 1 ∷ 3 ∷ [] }
    ensures committed { with_vote (removing 1) (1 ∷ []) 3 ≡ 1 ∷ [] }
    ensures in_order { with_vote (removing 0) (1 ∷ 3 ∷ []) 2 ≡ 1 ∷ 2 ∷ 3 ∷ [] }
{}
