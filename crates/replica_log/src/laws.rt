//! What a log tells is what each model replica has for which the log stands.
//!
//! The clauses `model` of its calls say so of one call. Here it is said of every window and every index.

ghost use Rattle.replica_log.specs.Models.{IndicesAreTheModels, HashesAreTheModels, TermsAreTheModels, NewestAreTheModels, ConfigsAreTheModels};

/// The law that the indices of a log are those of each model replica for which it stands. It does nothing.
pub fn indices_are_the_models()
    ensures { IndicesAreTheModels }
{}

/// The law that the hash at each index, where the log keeps one, is the one that each such replica keeps there. It does
/// nothing.
pub fn hashes_are_the_models()
    ensures { HashesAreTheModels }
{}

/// The law that the term at each index that a log keeps is the one that each such replica has there. It does nothing.
pub fn terms_are_the_models()
    ensures { TermsAreTheModels }
{}

/// The law that the newest configuration up to each index from the base on, and its index, are those of each such
/// replica. It does nothing.
pub fn newest_are_the_models()
    ensures { NewestAreTheModels }
{}

/// The law that the configurations up to each index from the base on are those of each such replica, where the log's
/// indices are in order. It does nothing.
pub fn configs_are_the_models()
    ensures { ConfigsAreTheModels }
{}
