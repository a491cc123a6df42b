//! Rows in slots, which a sorted list names.

use crate::change::{Change, change_row};
use crate::order::number_of;
use crate::pages::Pages;
use crate::search::search;
use crate::store::RowStore;
use std::alloc::Global;
use std::marker::Model;
use values::{ClientId, Memory, Row, TryCopy};

/// Rows in slots, and the list of the slots in rising client order. A new row moves numbers of
/// slots alone, two bytes each, and no row. The clients' numbers stand by themselves, so that a
/// search reads nothing of the rows. Contracts see the list of the rows in that order.
#[derive(Debug, Drop)]
pub struct SortedRows {
    order: Pages,
    numbers: Vec<u128>,
    slots: Vec<Row>,
}

impl Model for SortedRows {
    ghost use Rattle.std.specs.Prelude.{List};
    ghost use Rattle.std.specs.List.{concat};
    ghost use Rattle.values.specs.declared.row.Row.{Row};
    ghost use Rattle.record_table.specs.Slots.{rows_in, IsSorted};

    ghost Value = { List Row };

    ghost view = { λ s. rows_in (concat s.order) s.slots.items };

    ghost invariant = { λ s. IsSorted (concat s.order) s.numbers.items s.slots.items };
}

impl RowStore for SortedRows {
    ghost content = { λ rows. rows };

    fn empty(alloc: Global) -> SortedRows {
        SortedRows {
            order: Pages::new(alloc),
            numbers: Vec::new(alloc),
            slots: Vec::new(alloc),
        }
    }

    fn find(&self, client: &ClientId) -> Option<&Row> {
        match search(&self.order, &self.numbers, number_of(client)) {
            Ok(slot) => Some(&self.slots[slot]),
            Err(_) => None,
        }
    }

    fn place(&self, n: u32) -> Option<&Row> {
        match self.order.nth(n as usize) {
            Some(slot) => Some(&self.slots[slot as usize]),
            None => None,
        }
    }

    fn count(&self) -> u32 {
        self.slots.len() as u32
    }

    fn put(&mut self, row: Row) -> Result<(), Memory> {
        let number = number_of(&row.client);
        match search(&self.order, &self.numbers, number) {
            Ok(slot) => {
                self.slots[slot] = row;
                Ok(())
            }
            Err(spot) => {
                let slot = self.slots.len() as u16;
                self.numbers.reserve(1)?;
                self.slots.reserve(1)?;
                self.order.insert(spot, slot)?;
                self.numbers.push(number)?;
                self.slots.push(row)?;
                Ok(())
            }
        }
    }

    fn add(&mut self, row: Row) -> Result<(), Memory> {
        self.put(row)
    }

    fn change(&mut self, client: &ClientId, last: u64, change: Change) -> Result<(), Memory> {
        if let Ok(slot) = search(&self.order, &self.numbers, number_of(client)) {
            change_row(&mut self.slots[slot], last, change);
        }
        Ok(())
    }

    fn copy(&self) -> Result<SortedRows, Memory> {
        let alloc = *self.slots.allocator();
        let mut slots = Vec::with_capacity(alloc, self.slots.len())?;
        for row in &self.slots {
            slots.push(row.copy(alloc)?)?;
        }
        Ok(SortedRows {
            order: self.order.copy(alloc)?,
            numbers: self.numbers.clone()?,
            slots,
        })
    }
}
