//! The record table over any store of rows.

use crate::change::Change;
use crate::rules::{copied_request, outcome};
use crate::store::RowStore;
use crate::tree::TreeRows;
use std::alloc::Global;
use std::marker::Model;
use values::{ClientId, Memory, Reply, Request, Row, Rows, TryCopy};

/// A limit, and a finite map from clients to rows. Contracts see both; the rows stand in strictly
/// rising client order.
#[derive(Debug, Drop)]
pub struct TableOver<T: RowStore> {
    alloc: Global,
    limit: u32,
    rows: T,
}

/// The record table.
pub type Table = TableOver<TreeRows>;

impl<T: RowStore> Model for TableOver<T> {
    ghost use Rattle.record_rules.specs.Table.{RecordTable};
    ghost use Rattle.record_rules.specs.Valid.{IsSound};

    ghost Value = { RecordTable };

    ghost view = { λ t. record { limit = t.limit; rows = T.content t.rows } };

    ghost invariant = { λ t. IsSound (record { limit = t.limit; rows = T.content t.rows }) };
}

impl<T: RowStore> TableOver<T> {
    ghost use Rattle.std.specs.Prelude.{◌≡◌, ◌≤◌, IsNone, length, take, drop, IfOk, OnOk, OnErr, option_copied};
    ghost use Rattle.values.specs.declared.limits.TheConstants.{MOST_ROWS};
    ghost use Rattle.record_rules.specs.Table.{empty_table, row_of, can_add, row_added};
    ghost use Rattle.values.specs.Sizes.{IsValid};
    ghost use Rattle.record_rules.specs.Valid.{IsValidRow, IsSound};
    ghost use Rattle.record_rules.specs.Rules.{apply, ask_unknown};

    /// A table of this limit in which no client is known.
    pub fn new(alloc: Global, limit: u32) -> TableOver<T>
        requires least { 1 ≤ limit }
        requires most { limit ≤ MOST_ROWS }
        ensures { result ≡ empty_table limit }
    {
        TableOver {
            alloc,
            limit,
            rows: T::empty(alloc),
        }
    }

    /// The most rows that the table may hold.
    pub fn limit(&self) -> u32
        ensures { result ≡ self.now.limit }
    {
        self.limit
    }

    /// How many rows it holds.
    pub fn count(&self) -> u32
        ensures count { result ≡ length self.now.rows }
        ensures sound { IsSound self.now }
    {
        // A reader of a field is told what holds of every table.
        let _ = &self.limit;
        self.rows.count()
    }

    /// The client's row, or `None` exactly where the client is unknown.
    pub fn look(&self, client: &ClientId) -> Option<&Row>
        ensures { option_copied result ≡ row_of self.now.rows client.now }
    {
        self.rows.find(client)
    }

    /// Applies the client's numbered request by the record rules, and gives the reply. After
    /// `Memory` the table is as before.
    pub fn apply(
        &mut self,
        client: &ClientId,
        number: u64,
        request: &Request,
    ) -> Result<Reply, Memory>
        requires { IsValid request.now }
        ensures reply { IfOk result (λ reply. reply ≡ (apply self.old client.now number request.now).1) }
        ensures table { OnOk result (self.new ≡ (apply self.old client.now number request.now).0) }
        ensures err { OnErr result (self.new ≡ self.old) }
    {
        let request = copied_request(self.alloc, request)?;
        self.apply_owned(client, number, request)
    }

    /// The same over a request that the caller is done with: the secret of a backup goes into the
    /// row, and is not copied.
    pub fn apply_owned(
        &mut self,
        client: &ClientId,
        number: u64,
        request: Request,
    ) -> Result<Reply, Memory>
        requires { IsValid request }
        ensures reply { IfOk result (λ reply. reply ≡ (apply self.old client.now number request).1) }
        ensures table { OnOk result (self.new ≡ (apply self.old client.now number request).0) }
        ensures err { OnErr result (self.new ≡ self.old) }
    {
        match self.rows.find(client) {
            Some(row) => {
                if number <= row.last {
                    return Ok(Reply::Stale(row.last));
                }
                let (change, response) = outcome(self.alloc, request, row.kept.as_ref())?;
                self.rows.change(client, number, change)?;
                Ok(Reply::Applied(response))
            }
            None => self.apply_unknown(client, number, request),
        }
    }

    /// A request of an unknown client: a backup makes it known, where there is room, and no other
    /// request changes anything.
    fn apply_unknown(
        &mut self,
        client: &ClientId,
        number: u64,
        request: Request,
    ) -> Result<Reply, Memory>
        requires valid { IsValid request }
        requires unknown { IsNone (row_of self.old.rows client.now) }
        ensures reply { IfOk result (λ reply. reply ≡ (ask_unknown self.old client.now number request).1) }
        ensures table { OnOk result (self.new ≡ (ask_unknown self.old client.now number request).0) }
        ensures err { OnErr result (self.new ≡ self.old) }
    {
        let is_backup = matches!(request, Request::Backup { .. });
        if is_backup && self.rows.count() == self.limit {
            return Ok(Reply::TableFull(self.limit));
        }
        let (change, response) = outcome(self.alloc, request, None)?;
        if let Change::Keep(kept) = change {
            self.rows.add(Row {
                client: *client,
                last: number,
                kept: Some(kept),
            })?;
        }
        Ok(Reply::Applied(response))
    }

    /// Copies of the rows from a place on, in rising client order, at most n of them.
    pub fn rows_from(&self, place: u32, n: u32) -> Result<Rows, Memory>
        ensures { IfOk result (λ rows. rows ≡ take n (drop place self.now.rows)) }
    {
        let mut rows = Rows::new(self.alloc);
        let end = place.saturating_add(n).min(self.count());
        for at in place..end {
            if let Some(row) = self.rows.place(at) {
                rows.push(row.copy(self.alloc)?)?;
            }
        }
        Ok(rows)
    }

    /// Adds a row: false, and nothing is changed, exactly where the client is known or the table is
    /// full. After `Memory` the table is as before.
    pub fn add_row(&mut self, row: Row) -> Result<bool, Memory>
        requires { IsValidRow row }
        ensures answer { IfOk result (λ done. done ≡ can_add self.old row) }
        ensures ok { OnOk result (self.new ≡ row_added self.old row) }
        ensures err { OnErr result (self.new ≡ self.old) }
    {
        if self.rows.count() >= self.limit || self.rows.find(&row.client).is_some() {
            return Ok(false);
        }
        self.rows.add(row)?;
        Ok(true)
    }

    /// A copy of it.
    pub fn copy(&self) -> Result<TableOver<T>, Memory>
        ensures { IfOk result (λ table. table ≡ self.now) }
    {
        Ok(TableOver {
            alloc: self.alloc,
            limit: self.limit,
            rows: self.rows.copy()?,
        })
    }
}
