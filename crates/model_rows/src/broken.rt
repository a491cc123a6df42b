//! Where a premise fails, its laws can be false: runs on which they are.

ghost use Rattle.std.specs.Prelude.{◌≡◌, ℕ, []};
ghost use Rattle.std.specs.List.{AllByRecursion};
ghost use Rattle.group_model.specs.Log.{WithinBound, NoCollision, log_of};
ghost use Rattle.group_model.specs.Laws.{OneLogLaws};
ghost use Rattle.group_model.specs.Halts.{HaltLaws, HoldsEnough, WasEnough};
ghost use Rattle.trace_model.specs.Audit.{Audits, Accepts};
ghost use Rattle.trace_model.specs.Hashing.{GivesHashes};
ghost use Rattle.model_rows.specs.Broken.{forked, revoted, constant_link, collided, long_link, long_hashed, long_trace, LongWantsAreRefused};

use trace_model::fields_are_plain;

/// Beyond the rollback bound there is no one log.
pub fn no_one_log()
    ensures beyond { ¬ (WithinBound forked) }
    ensures broken { ¬ (OneLogLaws forked) }
{}

/// After a rollback, also within the bound, a replica can lead without what was enough before, and another can halt.
pub fn halts_after_a_rollback()
    ensures rolled { ¬ (revoted.rolled ≡ []) }
    ensures enough { WasEnough revoted 1 (log_of revoted) }
    ensures incomplete { ¬ (AllByRecursion (HoldsEnough revoted) revoted.field.history) }
    ensures broken { ¬ (HaltLaws revoted) }
{}

/// A link that gives one hash to all collides as soon as there are two entries.
pub fn one_hash_collides()
    ensures { ¬ (NoCollision constant_link collided) }
{}

/// Over a link whose hashes have more than 32 bytes a trace is not accepted, though its run is within the bound and has no
/// collision: the hash of a table that was taken is none. It only names the law below.
pub fn long_hashes_are_refused()
    ensures within { WithinBound long_hashed }
    ensures apart { NoCollision long_link long_hashed }
    ensures long { ¬ (GivesHashes long_link) }
    ensures refused { (lines : ℕ) → ¬ (Audits long_trace (Accepts lines)) }
{
    fields_are_plain();
}

/// The law that a want whose secret has 34,000,000 bytes or more makes a line that is longer than any line may be; the
/// record of such a want has more bytes than a source that is played.
pub fn long_wants_are_refused()
    ensures { LongWantsAreRefused }
{}
