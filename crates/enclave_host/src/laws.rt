//! What a save keeps.
ghost use Rattle.std.specs.Prelude.{◌≡◌, ℕ, List, Some};
ghost use Rattle.replica_model.specs.Call.{still};
ghost use Rattle.replica_model.specs.Linked.{sha_link};
ghost use Rattle.replica_model.specs.Replica.{Named};
ghost use Rattle.group_model.specs.Enclave.{Enclave, Hello, Roll, Save, called, calls, started};
ghost use Rattle.trace_model.specs.Session.{Content};
ghost use Rattle.enclave_host.specs.Handing.{after_all};

/// A state that was saved is put back, whatever was called since: the replica is the one that stood at the save, the links
/// are as they are, and the batch is empty.
pub fn saved_states_are_put_back()
    ensures { (e : Enclave) (k : ℕ) (later : List (Named × Content)) → (called sha_link e Save).call.batch.saved ≡ Some k
        → called sha_link (after_all later (called sha_link e Save).enclave) (Roll k)
        ≡ calls (after_all later (called sha_link e Save).enclave) (still e.replica) }
{}

/// The first state is put back as state 0, whatever was called since.
pub fn first_state_is_put_back()
    ensures { (hello : Hello) (later : List (Named × Content))
        → called sha_link (after_all later (started hello)) (Roll 0)
        ≡ calls (after_all later (started hello)) (still (started hello).replica) }
{}
