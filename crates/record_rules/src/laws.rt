//! What holds of every list of asks, whatever the limit. Each law is the contract of a function
//! that does nothing.

ghost use Rattle.std.specs.Prelude.{◌≡◌, ℕ, ◌+◌, ◌≤◌, ◌∷◌, [], ◌++◌, length, fold, Option, Some};
ghost use Rattle.record_rules.specs.Table.{RecordTable, empty_table, row_added};
ghost use Rattle.record_rules.specs.Places.{ClientAsk, Places, apply_place, fold_places, reply_at};
ghost use Rattle.record_rules.specs.Rules.{apply};
ghost use Rattle.record_rules.specs.Laws.{AreValid, RowsArePut, RowsStay, IsBounded, NumbersRise, GuessesEnd, DataIsEarned};

/// The table after one place more is the table before it, with that place applied; and an ask there
/// is given the reply of the table before it.
pub fn fold_grows()
    ensures table { (limit : ℕ) (places : Places) (place : Option ClientAsk)
        → fold_places limit (places ++ place ∷ []) ≡ apply_place (fold_places limit places) place }
    ensures reply { (limit : ℕ) (places : Places) (ask : ClientAsk)
        → reply_at limit (places ++ Some ask ∷ []) (length places + 1)
        ≡ Some (apply (fold_places limit places) ask.client ask.number ask.request).1 }
{}

/// What a place replies stays so, whatever places follow.
pub fn replies_stay()
    ensures { (limit : ℕ) (places more : Places) (i : ℕ) → i ≤ length places
        → reply_at limit (places ++ more) i ≡ reply_at limit places i }
{}

/// An ask that acts puts its client's row, where the client is known or it is a backup; no other
/// place changes the row.
pub fn rows_follow_asks()
    ensures put { (limit : ℕ) (places : Places) → RowsArePut limit places }
    ensures stay { (limit : ℕ) (places : Places) → RowsStay limit places }
{}

/// The table of any list of places has its limit, and no more rows than that, in rising order.
pub fn tables_are_bounded()
    ensures { (limit : ℕ) (places : Places) → IsBounded limit (fold_places limit places) }
{}

/// The rows of a table, added one after another to an empty one of its limit, make the same table.
pub fn rows_make_their_table()
    ensures { (limit : ℕ) (table : RecordTable) → IsBounded limit table
        → fold row_added (empty_table limit) table.rows ≡ table }
{}

/// Of two places of one client that act, the later has the higher number, once the client is known.
pub fn numbers_rise()
    ensures { (limit : ℕ) (places : Places) → NumbersRise limit places }
{}

/// A backup of n tries allows at most n wrong guesses, and at n the record is gone.
pub fn guesses_end()
    ensures { (limit : ℕ) (places : Places) → AreValid places → GuessesEnd limit places }
{}

/// A secret leaves only after its backup and its expose, for the right PIN, with the tries that
/// remain.
pub fn data_is_earned()
    ensures { (limit : ℕ) (places : Places) → AreValid places → DataIsEarned limit places }
{}
