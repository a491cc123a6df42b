//! The laws' premises are met by runs with rollbacks, changes and several leaders.

ghost use Rattle.group_model.specs.Log.{WithinBound, NoCollision};
ghost use Rattle.model_rows.specs.Broken.{revoted};
ghost use Rattle.model_rows.specs.Toy.{toy_link};

/// A run in which a replica was rolled back is within the bound and has no collision.
pub fn a_rollback_within()
    ensures within { WithinBound revoted }
    ensures apart { NoCollision toy_link revoted }
{}
