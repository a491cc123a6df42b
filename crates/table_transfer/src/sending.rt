//! A table that is being sent.
ghost use Rattle.std.specs.Prelude.{◌≡◌, ◌≤◌, length, Ok, IfOk};
ghost use Rattle.group_quorum.specs.Voters.{conf_of};
ghost use Rattle.record_rules.specs.Valid.{IsSound};
ghost use Rattle.values.specs.declared.limits.TheConstants.{MAX_PARTS, ROWS_PER_PART};
ghost use Rattle.replica_model.specs.Path.{Link};
ghost use Rattle.replica_model.specs.Replica.{Named};
ghost use Rattle.replica_model.specs.Tables.{parts_of, IsTruePart};
ghost use Rattle.table_transfer.specs.SentTable.{begun, part_at, heard, after_heard, SendsTableOf};
ghost use Rattle.table_transfer.specs.TakenParts.{IsTakable};

use crate::laws::tables_of_paths;
use crate::points::{same_point, voters_of};
use group_quorum::Config;
use record_table::Table;
use replica_model::ROWS_PER_PART;
use std::alloc::Global;
use std::marker::Model;
use values::{Memory, Point, TablePart};

/// A table that is being sent to one learner, with the number of the part that is outstanding.
#[derive(Debug, Drop)]
pub struct Sending {
    alloc: Global,
    point: Point,
    last_term: u64,
    config: Config,
    conf_index: u64,
    table: Table,
    part: u32,
}

/// What a number that was heard of a table means.
#[derive(Clone, Copy, Debug, PartialEq, Eq)]
pub enum Sent {
    /// A later part is outstanding now.
    Next,
    /// The whole table was taken.
    Done,
    /// Nothing: it is of another table, or it is not news.
    Ignored,
}

impl Model for Sending {
    ghost use Rattle.std.specs.Prelude.{◌<◌};
    ghost use Rattle.table_transfer.specs.SentTable.{SentTable};
    ghost use Rattle.replica_model.specs.Tables.{parts_of};

    ghost Value = { SentTable };

    ghost view = { λ s. record {
      point = s.point;
      last_term = s.last_term;
      conf = s.config;
      conf_index = s.conf_index;
      table = s.table;
      part = s.part;
    } };

    ghost invariant = { λ s. s.part < parts_of s.table.rows };
}

impl Sending {
    /// Begins to send the table as it stands after the entry at a point of the log, with the term
    /// of that entry, the configuration there and its index. Part 0 is outstanding.
    pub fn new(
        alloc: Global,
        point: Point,
        last_term: u64,
        config: Config,
        conf_index: u64,
        table: Table,
    ) -> Sending
        ensures { result ≡ begun point last_term config conf_index table }
    {
        Sending {
            alloc,
            point,
            last_term,
            config,
            conf_index,
            table,
            part: 0,
        }
    }

    /// The part that is outstanding.
    pub fn part(&self) -> Result<TablePart, Memory>
        ensures outstanding { IfOk result (λ part. part ≡ part_at self.now self.now.part) }
        ensures of_path { (link : Link) (names : Named) → SendsTableOf link self.now names
            → IfOk result (λ part. IsTruePart link part names) }
        ensures takable { IfOk result IsTakable }
        ensures sized { IfOk result (λ part. (part.parts ≤ MAX_PARTS) × (length part.rows ≤ ROWS_PER_PART)) }
        ensures members { IfOk result (λ part. conf_of part.margin part.voters ≡ Ok self.now.conf) }
    {
        // what the part says of a path's table rests on this law
        tables_of_paths();
        let voters = voters_of(self.alloc, &self.config)?;
        Ok(TablePart {
            point: self.point,
            last_term: self.last_term,
            conf_index: self.conf_index,
            margin: self.config.margin(),
            voters,
            limit: self.table.limit(),
            part: self.part,
            parts: self.parts(),
            rows: self
                .table
                .rows_from(ROWS_PER_PART * self.part, ROWS_PER_PART)?,
        })
    }

    /// Hears that all parts before number `next` of the table at a point were taken. The table at
    /// another point is another one.
    pub fn heard(&mut self, point: &Point, next: u32) -> Sent
        ensures answer { result ≡ heard self.old point.now next }
        ensures after { self.new ≡ after_heard self.old next result }
    {
        if !same_point(point, &self.point) {
            return Sent::Ignored;
        }
        let parts = self.parts();
        if next == parts {
            return Sent::Done;
        }
        if self.part < next && next < parts {
            self.part = next;
            return Sent::Next;
        }
        Sent::Ignored
    }

    /// A copy of it.
    pub fn copy(&self) -> Result<Sending, Memory>
        ensures { IfOk result (λ sending. sending ≡ self.now) }
    {
        Ok(Sending {
            alloc: self.alloc,
            point: self.point,
            last_term: self.last_term,
            config: self.config,
            conf_index: self.conf_index,
            table: self.table.copy()?,
            part: self.part,
        })
    }

    /// How many parts the table has. Rows that fill no part whole make the last one.
    fn parts(&self) -> u32
        ensures parts { result ≡ parts_of self.now.table.rows }
        ensures few { result ≤ MAX_PARTS }
        ensures sound { IsSound self.now.table }
    {
        ((self.table.count() + (ROWS_PER_PART - 1)) / ROWS_PER_PART).max(1)
    }
}
