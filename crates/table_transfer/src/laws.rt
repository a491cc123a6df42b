//! What holds of the table of a path.
ghost use Rattle.std.specs.Prelude.{◌≡◌, ℕ, fold};
ghost use Rattle.record_rules.specs.Table.{empty_table, row_added};
ghost use Rattle.replica_model.specs.Path.{Path};
ghost use Rattle.replica_model.specs.Folds.{fold_of};

use record_rules::{rows_make_their_table, tables_are_bounded};

/// The table of a path has the limit that it was folded with, and its rows make it again. It only
/// names the laws of all tables.
pub fn tables_of_paths()
    ensures limit { (limit : ℕ) (path : Path) → (fold_of limit path).limit ≡ limit }
    ensures again { (limit : ℕ) (path : Path) → fold row_added (empty_table limit) (fold_of limit path).rows ≡ fold_of limit path }
{
    tables_are_bounded();
    rows_make_their_table();
}
