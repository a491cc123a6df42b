//! What a request that acts makes of a client's row.
ghost use Rattle.std.specs.Prelude.{◌≡◌, Option};
ghost use Rattle.values.specs.declared.row.Kept.{Kept as KeptRecord};
ghost use Rattle.record_table.specs.Changes.{kept_after};

use values::{Kept, Row};

/// A change of a client's record.
#[derive(Debug, Drop)]
pub enum Change {
    /// A record stays as it is, and where there is none it stays so.
    Stay,
    /// There is no record any more.
    Forget,
    /// This record takes the place of the one before.
    Keep(Kept),
    /// The record's secret may be restored from now on.
    Expose,
    /// The number of tries that are left becomes this one.
    Leave(u32),
}

/// The change that makes this the record, or leaves none.
pub fn keeping(kept: Option<Kept>) -> Change
    ensures { (before : Option KeptRecord) → kept_after result before ≡ kept }
{
    match kept {
        Some(kept) => Change::Keep(kept),
        None => Change::Forget,
    }
}

/// Changes the row in its place: its last number and its record. No bytes are copied.
pub fn change_row(row: &mut Row, last: u64, change: Change)
    ensures { row.new ≡ record row.old { last = last; kept = kept_after change row.old.kept } }
{
    row.last = last;
    match change {
        Change::Stay => {}
        Change::Forget => row.kept = None,
        Change::Keep(kept) => row.kept = Some(kept),
        Change::Expose => {
            if let Some(kept) = &mut row.kept {
                kept.exposed = true;
            }
        }
        Change::Leave(left) => {
            if let Some(kept) = &mut row.kept {
                kept.left = left;
            }
        }
    }
}
