//! Sessions of one enclave over frames, and a group over contents.

ghost use Rattle.std.specs.Prelude.{◌≡◌, [], ◌∷◌, ◌++◌, length, replicate, take, Some, None};
ghost use Rattle.schedule_model.specs.Quantities.{Replicas, States};
ghost use Rattle.schedule_model.specs.Written.{AtLimit, AtFrame, AtField};
ghost use Rattle.trace_model.specs.Session.{Done, Bad, Cut, Length, Tag, Faulty, NotBegun, BegunAgain};
ghost use Rattle.model_rows.specs.Answered.{AnsweredBy, batches_of};
ghost use Rattle.model_rows.specs.Rows.LearnerTakesATable;
ghost use Rattle.model_rows.specs.Rows.OneReplicaTooMany;
ghost use Rattle.model_rows.specs.Rows.OneStateTooMany;
ghost use Rattle.model_rows.specs.Rows.OneVoterOneBackup;
ghost use Rattle.model_rows.specs.ToySession.{frames, framed, answers, Ends, TaggedEnds};

/// The trace is the one from the contents that its own enclaves give, links of a start included.
pub fn own_contents()
    ensures { AnsweredBy LearnerTakesATable.schedule (length (batches_of LearnerTakesATable.schedule)) [] LearnerTakesATable.trace None [] }
{}

/// A content that is no batch ends the text, tells its offset, and is the last that is taken. So does none, where one is asked for.
pub fn other_contents()
    ensures broken { AnsweredBy OneVoterOneBackup.schedule 1 ((99 ∷ []) ∷ []) ("event,1,begin,0,100,1" ∷ "event,2,tick,1" ∷ "lead,1,1" ∷ "commit,1,1,1,noop" ∷ "stopped,frame" ∷ []) (Some (AtFrame 99)) [] }
    ensures later { AnsweredBy OneVoterOneBackup.schedule 1 ((99 ∷ []) ∷ (1 ∷ []) ∷ []) ("event,1,begin,0,100,1" ∷ "event,2,tick,1" ∷ "lead,1,1" ∷ "commit,1,1,1,noop" ∷ "stopped,frame" ∷ []) (Some (AtFrame 99)) ((1 ∷ []) ∷ []) }
    ensures missing { AnsweredBy OneVoterOneBackup.schedule 1 [] ("event,1,begin,0,100,1" ∷ "event,2,tick,1" ∷ "lead,1,1" ∷ "commit,1,1,1,noop" ∷ []) (Some AtField) [] }
    ensures one_too_many { AnsweredBy OneVoterOneBackup.schedule (length (batches_of OneVoterOneBackup.schedule)) ((7 ∷ []) ∷ []) OneVoterOneBackup.trace None ((7 ∷ []) ∷ []) }
{}

/// The content whose batch passes a limit is one of those that are given.
pub fn one_state_too_many()
    ensures given { length (batches_of OneStateTooMany.schedule) ≡ 65 }
    ensures taken { AnsweredBy OneStateTooMany.schedule 65 [] OneStateTooMany.trace (Some (AtLimit States)) [] }
    ensures fewer { AnsweredBy OneStateTooMany.schedule 64 [] (take 129 OneStateTooMany.trace) (Some AtField) [] }
{}

/// Where an event would pass a limit before it is played, nothing is given for it.
pub fn no_links_for_one_replica_too_many()
    ensures given { length (batches_of OneReplicaTooMany.schedule) ≡ 2016 }
    ensures taken { AnsweredBy OneReplicaTooMany.schedule 2016 [] OneReplicaTooMany.trace (Some (AtLimit Replicas)) [] }
    ensures one_too_many { AnsweredBy OneReplicaTooMany.schedule 2016 ((0 ∷ []) ∷ []) OneReplicaTooMany.trace (Some (AtLimit Replicas)) ((0 ∷ []) ∷ []) }
{}

/// Each frame after the first is answered by the batch of its step. A roll puts the saved state back.
pub fn a_session()
    ensures { answers (frames ((1 ∷ 1 ∷ []) ∷ (9 ∷ []) ∷ (3 ∷ []) ∷ (10 ∷ 1 ∷ []) ∷ (10 ∷ 2 ∷ []) ∷ (3 ∷ []) ∷ [])) ≡ "" ∷ "saved,1,1" ∷ "lead,1,1commit,1,1,1,noop" ∷ "" ∷ "refused,nostate,2" ∷ "lead,1,1commit,1,1,1,noop" ∷ [] }
{}

/// A message is refused where its frame is short, for another, from one that is not linked, or no message; else it is taken.
pub fn peer_frames()
    ensures { answers (frames ((1 ∷ 1 ∷ 2 ∷ []) ∷ (4 ∷ 0 ∷ []) ∷ (4 ∷ 0 ∷ 0 ∷ 0 ∷ 9 ∷ 0 ∷ 0 ∷ 1 ∷ 2 ∷ []) ∷ (4 ∷ 0 ∷ 0 ∷ 0 ∷ 9 ∷ 0 ∷ 0 ∷ 0 ∷ 1 ∷ []) ∷ (4 ∷ 0 ∷ 0 ∷ 0 ∷ 2 ∷ 0 ∷ 0 ∷ 0 ∷ 1 ∷ 5 ∷ []) ∷ (4 ∷ 0 ∷ 0 ∷ 0 ∷ 2 ∷ 0 ∷ 0 ∷ 0 ∷ 1 ∷ 5 ∷ 0 ∷ 0 ∷ []) ∷ [])) ≡ "" ∷ "refused,badpeer,0" ∷ "refused,notforme,258" ∷ "refused,nolink,9" ∷ "refused,badpeer,7" ∷ "sent,1,1,2,vote,5,1" ∷ [] }
{}

/// A session ends between two frames, or at the first byte of a bad one, with its cause.
pub fn endings()
    ensures done { Ends (frames ((1 ∷ 1 ∷ []) ∷ (3 ∷ []) ∷ [])) Done }
    ensures empty { Ends [] Done }
    ensures cut_length { Ends (framed (1 ∷ 1 ∷ []) ++ (0 ∷ 0 ∷ 0 ∷ [])) (Bad 6 Cut) }
    ensures cut_content { Ends (framed (1 ∷ 1 ∷ []) ++ (0 ∷ 0 ∷ 0 ∷ 2 ∷ 3 ∷ [])) (Bad 6 Cut) }
    ensures no_content { Ends (0 ∷ 0 ∷ 0 ∷ 0 ∷ []) (Bad 0 (Length 0)) }
    ensures long_content { Ends (0 ∷ 16 ∷ 0 ∷ 1 ∷ []) (Bad 0 (Length 1048577)) }
    ensures not_begun { Ends (frames ((3 ∷ []) ∷ [])) (Bad 0 NotBegun) }
    ensures begun_again { Ends (frames ((1 ∷ 1 ∷ []) ∷ (1 ∷ 1 ∷ []) ∷ [])) (Bad 6 BegunAgain) }
    ensures faulty { Ends (frames ((8 ∷ []) ∷ [])) (Bad 0 (Faulty 8)) }
{}

/// A tagged frame has its tag after its content, by the frame's number; a wrong one comes before a bad content.
pub fn tags()
    ensures right { TaggedEnds (framed (1 ∷ 1 ∷ []) ++ replicate 32 11) Done }
    ensures cut { TaggedEnds (framed (1 ∷ 1 ∷ []) ++ replicate 31 11) (Bad 0 Cut) }
    ensures wrong { TaggedEnds (framed (8 ∷ []) ++ replicate 32 11) (Bad 0 (Tag 0)) }
    ensures second { TaggedEnds (framed (1 ∷ 1 ∷ []) ++ replicate 32 11 ++ framed (3 ∷ []) ++ replicate 32 11) (Bad 38 (Tag 1)) }
{}
