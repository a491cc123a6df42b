//! The book: the entries that were committed, the table that they make, and what each place replies.
ghost use Rattle.std.specs.Prelude.{◌≡◌, ◌≤◌, ◌++◌, ◌∷◌, [], true, length, option_map, option_copied, IfOk, OnOk, OnErr, Option, Some, None};
ghost use Rattle.values.specs.declared.limits.TheConstants.{MOST_ROWS};
ghost use Rattle.record_rules.specs.Places.{apply_place};
ghost use Rattle.replica_model.specs.Folds.{place_of, reply_of};
ghost use Rattle.replica_model.specs.Path.{entry_at};
ghost use Rattle.trace_audit.specs.Steps.{added};
ghost use Rattle.trace_audit.specs.Books.{fits, answers, reply_in, reply_to};

use crate::same::{is_ask_of, same_entry, same_reply};
use client_msgs::{RequestFault, read_request};
use record_rules::{fold_grows, replies_stay, tables_are_bounded};
use record_table::Table;
use std::alloc::Global;
use std::marker::Model;
use values::{Body, ClientId, LogEntry, Memory, Reply};

/// The entries that were committed, from index 1 on, and the table that they make, which each new entry moves on.
#[derive(Debug, Drop)]
pub(crate) struct Book {
    alloc: Global,
    table: Table,
    places: Vec<Place>,
}

/// An entry, and the table's reply where it is a request.
#[derive(Debug, Drop)]
struct Place {
    entry: LogEntry,
    reply: Option<Reply>,
}

impl Model for Book {
    ghost use Rattle.trace_audit.specs.Steps.{added};
    ghost use Rattle.trace_audit.specs.Books.{KeptBook, AreJudged, entries_of};

    ghost Value = { KeptBook };

    ghost view = { λ b. record { limit = b.table.limit; entries = entries_of b.places.items } };

    ghost invariant = { λ b. AreJudged b.table b.places.items };
}

impl Book {
    /// A book without an entry, whose table holds so many rows at most.
    pub(crate) fn new(alloc: Global, limit: u32) -> Book
        requires least { 1 ≤ limit }
        requires most { limit ≤ MOST_ROWS }
        ensures { result ≡ record { limit = limit; entries = [] } }
    {
        Book {
            alloc,
            table: Table::new(alloc, limit),
            places: Vec::new(alloc),
        }
    }

    /// How many entries it has.
    pub(crate) fn len(&self) -> u64
        ensures { result ≡ length self.now.entries }
    {
        self.places.len() as u64
    }

    /// Whether a commit at this index repeats the entry there, or follows the last one.
    pub(crate) fn fits(&self, index: u64, entry: &LogEntry) -> bool
        ensures { result ≡ fits self.now.entries index entry.now }
    {
        match self.place(index) {
            Some(place) => same_entry(&place.entry, entry),
            None => index.checked_sub(1) == Some(self.len()),
        }
    }

    /// Whether a request of this client and number stands at the index, and this is its reply.
    pub(crate) fn answers(&self, client: &ClientId, number: u64, index: u64, reply: &Reply) -> bool
        ensures { result ≡ answers self.now.limit self.now.entries client.now number index reply.now }
    {
        match self.place(index) {
            Some(place) => {
                is_ask_of(&place.entry.body, client, number)
                    && place
                        .reply
                        .as_ref()
                        .is_some_and(|told| same_reply(told, reply))
            }
            None => false,
        }
    }

    /// Takes in an entry that fits the index: one that is there already is not kept again. After `Memory` nothing has changed.
    pub(crate) fn commit(&mut self, index: u64, entry: LogEntry) -> Result<(), Memory>
        ensures ok { fits self.old.entries index entry ≡ true
            → OnOk result (self.new ≡ record self.old { entries = added self.old.entries entry (entry_at self.old.entries index) }) }
        ensures err { OnErr result (self.new ≡ self.old) }
    {
        if index <= self.len() {
            return Ok(());
        }
        self.push(entry)
    }

    /// Adds an entry behind the last one, and moves the table on by it. After `Memory` nothing has changed.
    pub(crate) fn push(&mut self, entry: LogEntry) -> Result<(), Memory>
        ensures ok { OnOk result (self.new ≡ record self.old { entries = self.old.entries ++ entry ∷ [] }) }
        ensures err { OnErr result (self.new ≡ self.old) }
    {
        // the table after one place more, and that the replies before it stay
        fold_grows();
        replies_stay();
        tables_are_bounded();
        self.places.reserve(1)?;
        let reply = apply_body(self.alloc, &mut self.table, &entry.body)?;
        self.places.push(Place { entry, reply })?;
        Ok(())
    }

    /// The place at an index, from 1.
    fn place(&self, index: u64) -> Option<&Place>
        ensures entry { option_map (λ p. p.entry) (option_copied result) ≡ entry_at self.now.entries index }
        ensures reply { reply_in (option_copied result) ≡ reply_of self.now.limit self.now.entries index }
    {
        if index == 0 {
            return None;
        }
        self.places.get((index - 1) as usize)
    }
}

/// Applies the body of an entry to the table, and gives the reply to a request.
fn apply_body(alloc: Global, table: &mut Table, body: &Body) -> Result<Option<Reply>, Memory>
    ensures reply { IfOk result (λ reply. reply ≡ reply_to table.old (place_of body.now)) }
    ensures table { OnOk result (table.new ≡ apply_place table.old (place_of body.now)) }
    ensures err { OnErr result (table.new ≡ table.old) }
{
    let Body::Ask {
        client,
        number,
        request,
    } = body
    else {
        return Ok(None);
    };
    match read_request(alloc, request.as_slice()) {
        Ok(request) => Ok(Some(table.apply_owned(client, *number, request)?)),
        Err(RequestFault::Memory) => Err(Memory),
        Err(_) => Ok(None),
    }
}
