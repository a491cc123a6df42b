//! Runs of clients: their cores, their answers, a driver, a table alone. Each function is the law that the definitions give this trace.

ghost use Rattle.std.specs.Prelude.{◌≡◌, [], ◌∷◌};
ghost use Rattle.trace_model.specs.Summary.{summary};
ghost use Rattle.model_rows.specs.Plays.{Applies, Drives, Plays};
ghost use Rattle.model_rows.specs.Rows.OneClient;
ghost use Rattle.model_rows.specs.Rows.NotLeader;
ghost use Rattle.model_rows.specs.Rows.StaleAndFullInALog;
ghost use Rattle.model_rows.specs.Rows.DriverStores;
ghost use Rattle.model_rows.specs.Rows.DriverWakesALeader;
ghost use Rattle.model_rows.specs.Rows.DriverGivesUp;
ghost use Rattle.model_rows.specs.Rows.WireFaults;
ghost use Rattle.model_rows.specs.Rows.GuessesRunOut;
ghost use Rattle.model_rows.specs.Shown.{shown};
ghost use Rattle.model_rows.specs.StoredTwice.{stored_twice, OwnPlaces};
ghost use Rattle.model_rows.specs.Toy.{toy_link};

/// A client stores a secret, and recovers with a wrong PIN.
pub fn one_client()
    ensures { Plays OneClient.schedule OneClient.trace }
{}

/// A client stores the same secret twice, and what the second report says is said of the second want's own places.
pub fn the_second_store_is_its_own()
    ensures { OwnPlaces stored_twice stored_twice.hearings }
{}

/// A follower answers with the leader that it knows.
pub fn not_leader()
    ensures { Plays NotLeader.schedule NotLeader.trace }
{}

/// A stale number, and a table that is full.
pub fn stale_and_full_in_a_log()
    ensures { Plays StaleAndFullInALog.schedule StaleAndFullInALog.trace }
{}

/// A driver carries a store to its report.
pub fn driver_stores()
    ensures { Drives DriverStores.schedule DriverStores.trace }
{}

/// A driver wakes a replica, which then leads.
pub fn driver_wakes_a_leader()
    ensures { Drives DriverWakesALeader.schedule DriverWakesALeader.trace }
{}

/// A driver gives up after its turns.
pub fn driver_gives_up()
    ensures { Drives DriverGivesUp.schedule DriverGivesUp.trace }
{}

/// What a table answers to bytes that are no request.
pub fn wire_faults()
    ensures { Applies WireFaults.schedule WireFaults.trace }
{}

/// Wrong guesses run out, and the record is gone.
pub fn guesses_run_out()
    ensures { Applies GuessesRunOut.schedule GuessesRunOut.trace }
{}

/// A drill of one client. The hash of the trace, which does not compute here, is left empty.
pub fn a_drill()
    ensures { shown (summary (λ text. []) toy_link 0 1) ≡ "drill,0,1" ∷ "events,114" ∷ "messages,104" ∷ "answers,3" ∷ "stored,1" ∷ "recovered,0" ∷ "wrongpin,0" ∷ "deleted,1" ∷ "halts,0" ∷ "log,4" ∷ "rollbacks,within" ∷ "trace," ∷ [] }
{}
