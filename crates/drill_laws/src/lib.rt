//! What holds of the drill of every seed and number of clients.
#![tactic(auto)]

ghost use Rattle.drill_laws.specs.Laws.{DrillIsPlayed, DrillComesTo, HearsNameTheNewest, NobodyLearns};

/// The law that nothing stops a drill of 1 to 2,000 clients: each of its events is played, and no limit is met.
pub fn drill_is_played()
    ensures { DrillIsPlayed }
{}

/// The law of how many events, messages and answers a drill comes to, and that no replica halts in it.
pub fn drill_comes_to()
    ensures { DrillComesTo }
{}

/// The law that each answer that a drill names is the newest one when it is heard, and one to the client that hears it.
pub fn hears_name_the_newest()
    ensures { HearsNameTheNewest }
{}

/// The law that no learner is ever called in a drill: each replica that is called holds a log.
pub fn nobody_learns()
    ensures { NobodyLearns }
{}
