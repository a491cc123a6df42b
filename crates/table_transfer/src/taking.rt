//! The parts of a table that were taken.
ghost use Rattle.std.specs.Prelude.{◌≡◌, ◌+◌, ◌≤◌, ◌++◌, None, Some, fold, IfOk, OnOk, OnErr, All};
ghost use Rattle.values.specs.declared.limits.TheConstants.{MOST_ROWS};
ghost use Rattle.record_rules.specs.Table.{empty_table, row_added};
ghost use Rattle.record_rules.specs.Valid.{IsValidRow};
ghost use Rattle.replica_model.specs.Path.{Link};
ghost use Rattle.replica_model.specs.Replica.{Named, Taking as TakingOf};
ghost use Rattle.replica_model.specs.Tables.{IsTruePart};
ghost use Rattle.table_transfer.specs.TakenParts.{expected_point, expected_next, is_expected, IsTakable, with_part, table_of, take_part};
ghost use Rattle.table_transfer.specs.Taken.{TakesPartsOf, GoesOn, TakesAs};

use crate::laws::tables_of_paths;
use crate::points::same_point;
use record_table::Table;
use std::alloc::Global;
use std::marker::Model;
use values::{Hash, Memory, Point, Row, TablePart, TryCopy};

/// The parts of one table that a learner has taken so far, or none.
#[derive(Debug, Drop)]
pub struct Taking {
    alloc: Global,
    parts: Option<Parts>,
}

/// Parts of one table, from number 0 on. Their rows are kept as they came, and the table is made of them with the last
/// part: so want of memory leaves the parts as they were, and no table is copied on the way.
#[derive(Debug, Drop)]
struct Parts {
    point: Point,
    next: u32,
    limit: u32,
    rows: Vec<Row>,
}

/// What came of a part.
#[derive(Debug, Drop)]
pub enum TakePart {
    /// It was taken, and the part of this number is expected next.
    Taken(u32),
    /// It was the last one: the table is whole.
    Whole(Table),
    /// It was not taken: this number of the table at this point is expected, or number 0 of another
    /// table.
    Other { point: Point, next: u32 },
}

impl Model for Parts {
    ghost use Rattle.std.specs.Prelude.{◌≤◌, All};
    ghost use Rattle.values.specs.declared.limits.TheConstants.{MOST_ROWS};
    ghost use Rattle.record_rules.specs.Valid.{IsValidRow};
    ghost use Rattle.table_transfer.specs.TakenParts.{TakenParts};

    ghost Value = { TakenParts };

    ghost view = { λ p. record { point = p.point; next = p.next; limit = p.limit; rows = p.rows.items } };

    ghost invariant = { λ p. (1 ≤ p.limit) × (p.limit ≤ MOST_ROWS) × All IsValidRow p.rows.items };
}

impl Model for Taking {
    ghost use Rattle.std.specs.Prelude.{Option};
    ghost use Rattle.table_transfer.specs.TakenParts.{TakenParts};

    ghost Value = { Option TakenParts };

    ghost view = { λ t. t.parts };
}

impl Taking {
    /// No part was taken yet: number 0 of any table is expected.
    pub fn new(alloc: Global) -> Taking
        ensures { result ≡ None }
    {
        Taking { alloc, parts: None }
    }

    /// Takes a part of the table: the one that is expected, or number 0 of another table, whose
    /// parts then are taken anew. With the last part the table is handed out, and no part is taken
    /// any more. After `Memory` the parts are as before.
    pub fn take_part(&mut self, part: &TablePart) -> Result<TakePart, Memory>
        requires { IsTakable part.now }
        ensures taken { IfOk result (λ answer. (self.new, answer) ≡ take_part self.old part.now) }
        ensures of_path { (link : Link) (taking : TakingOf) (names : Named)
            → TakesPartsOf link self.old taking → IsTruePart link part.now names → GoesOn link taking part.now names
            → IfOk result (TakesAs link taking part.now names self.new) }
        ensures err { OnErr result (self.new ≡ self.old) }
    {
        // what is taken of a path's table rests on this law
        tables_of_paths();
        if !self.expects(part) {
            let (point, next) = self.expected();
            return Ok(TakePart::Other { point, next });
        }
        let parts = part.parts;
        let next = part.part + 1;
        if next == parts {
            let table = self.whole_with(part)?;
            self.parts = None;
            return Ok(TakePart::Whole(table));
        }
        self.keep(part, next)?;
        Ok(TakePart::Taken(next))
    }

    /// A copy of it.
    pub fn copy(&self) -> Result<Taking, Memory>
        ensures { IfOk result (λ taking. taking ≡ self.now) }
    {
        let parts = match &self.parts {
            Some(parts) => Some(parts.copy(self.alloc)?),
            None => None,
        };
        Ok(Taking {
            alloc: self.alloc,
            parts,
        })
    }

    /// The point and the number of the part that is expected.
    fn expected(&self) -> (Point, u32)
        ensures { result ≡ (expected_point self.now, expected_next self.now) }
    {
        match &self.parts {
            Some(parts) => (parts.point, parts.next),
            None => {
                let hash = Hash([0; 32]);
                (Point { index: 0, hash }, 0)
            }
        }
    }

    /// Whether the part is to be taken.
    fn expects(&self, part: &TablePart) -> bool
        ensures { result ≡ is_expected self.now part.now }
    {
        let (point, next) = self.expected();
        if same_point(&part.point, &point) {
            part.part == next
        } else {
            part.part == 0
        }
    }

    /// Keeps the rows of a part that is to be taken, and expects the next one.
    fn keep(&mut self, part: &TablePart, next: u32) -> Result<(), Memory>
        requires takable { IsTakable part.now }
        requires next { next ≡ part.now.part + 1 }
        ensures ok { OnOk result (self.new ≡ Some (with_part self.old part.now)) }
        ensures err { OnErr result (self.new ≡ self.old) }
    {
        let rows = part.rows.copy(self.alloc)?.into_vec();
        match &mut self.parts {
            Some(parts) if part.part > 0 => parts.add(next, rows),
            _ => {
                self.parts = Some(Parts {
                    point: part.point,
                    next,
                    limit: part.limit,
                    rows,
                });
                Ok(())
            }
        }
    }

    /// The table of all rows that were taken, with those of the last part.
    fn whole_with(&self, part: &TablePart) -> Result<Table, Memory>
        requires { IsTakable part.now }
        ensures { IfOk result (λ table. table ≡ table_of (with_part self.now part.now)) }
    {
        let last = part.rows.as_slice();
        match &self.parts {
            Some(parts) if part.part > 0 => {
                filled(self.alloc, parts.limit, parts.rows.as_slice(), last)
            }
            _ => filled(self.alloc, part.limit, &[], last),
        }
    }
}

impl Parts {
    /// Adds the rows of a part, and expects the part of this number.
    fn add(&mut self, next: u32, mut rows: Vec<Row>) -> Result<(), Memory>
        requires { All IsValidRow rows.items }
        ensures ok { OnOk result (self.new ≡ record (self.old) { next = next; rows = self.old.rows ++ rows.items }) }
        ensures err { OnErr result (self.new ≡ self.old) }
    {
        self.rows.append(&mut rows)?;
        self.next = next;
        Ok(())
    }

    /// A copy of them.
    fn copy(&self, alloc: Global) -> Result<Parts, Memory>
        ensures { IfOk result (λ parts. parts ≡ self.now) }
    {
        let mut rows = Vec::with_capacity(alloc, self.rows.len())?;
        for row in self.rows.as_slice() {
            rows.push(row.copy(alloc)?)?;
        }
        Ok(Parts {
            point: self.point,
            next: self.next,
            limit: self.limit,
            rows,
        })
    }
}

/// A table of these rows and then those. A row whose client is known, or for which there is no
/// room, is left out.
fn filled(alloc: Global, limit: u32, rows: &[Row], more: &[Row]) -> Result<Table, Memory>
    requires limit { (1 ≤ limit) × (limit ≤ MOST_ROWS) }
    requires rows { All IsValidRow rows.now }
    requires more { All IsValidRow more.now }
    ensures { IfOk result (λ table. table ≡ fold row_added (empty_table limit) (rows.now ++ more.now)) }
{
    let mut table = Table::new(alloc, limit);
    add_rows(alloc, &mut table, rows)?;
    add_rows(alloc, &mut table, more)?;
    Ok(table)
}

/// Adds copies of the rows to the table.
fn add_rows(alloc: Global, table: &mut Table, rows: &[Row]) -> Result<(), Memory>
    requires { All IsValidRow rows.now }
    ensures { OnOk result (table.new ≡ fold row_added table.old rows.now) }
{
    for row in rows {
        let _added = table.add_row(row.copy(alloc)?)?;
    }
    Ok(())
}
