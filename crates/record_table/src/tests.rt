//! Each public call on its happy path.
ghost use Rattle.std.specs.Prelude.{IfOk};
ghost use Rattle.values.specs.Sizes.{IsValid};
ghost use Rattle.record_rules.specs.Valid.{IsValidRow};

use crate::change::{Change, change_row};
use crate::sorted::SortedRows;
use crate::store::RowStore;
use crate::table::{Table, TableOver};
use crate::tree::TreeRows;
use record_rules::status::{OK, PIN_MISMATCH};
use std::alloc::Global;
use std::test::Fail;
use values::{Bytes, ClientId, Hash, Kept, Memory, Reply, Request, Response, Row};

const PIN: Hash = Hash([0x11; 32]);

fn client(n: u16) -> ClientId {
    ClientId(u128::from(n).to_be_bytes())
}

fn backup(alloc: Global) -> Result<Request, Memory>
    ensures { IfOk result IsValid }
{
    Ok(Request::Backup {
        secret: Bytes::from_slice(alloc, &[0xaa; 16])?,
        pin: PIN,
        tries: 3,
    })
}

fn row(alloc: Global, n: u16) -> Result<Row, Memory>
    ensures { IfOk result IsValidRow }
{
    let secret = Bytes::from_slice(alloc, &[0xaa; 16])?;
    Ok(Row {
        client: client(n),
        last: 1,
        kept: Some(Kept {
            secret,
            pin: PIN,
            left: 3,
            exposed: false,
        }),
    })
}

/// A table in which client 1 has an exposed record of three tries.
fn exposed(alloc: Global) -> Result<Table, Memory> {
    let mut table = Table::new(alloc, 10);
    let _backed_up = table.apply_owned(&client(1), 1, backup(alloc)?)?;
    let expose = Request::Expose {
        secret: Bytes::from_slice(alloc, &[0xaa; 16])?,
    };
    let _exposed = table.apply(&client(1), 2, &expose)?;
    Ok(table)
}

#[test]
fn a_wrong_pin_takes_a_try(rt: HostRuntime) -> Result<(), Fail> {
    let mut table = exposed(rt.alloc())?;
    let wrong = Request::Restore {
        pin: Hash([0x22; 32]),
    };
    let reply = table.apply(&client(1), 3, &wrong)?;
    let refused = Response::Restore {
        status: PIN_MISMATCH,
        secret: Bytes::from_slice(rt.alloc(), &[])?,
        tries: 2,
    };
    assert_eq!(rt; reply, Reply::Applied(refused));
    Ok(())
}

#[test]
fn the_right_pin_gives_the_secret(rt: HostRuntime) -> Result<(), Fail> {
    let mut table = exposed(rt.alloc())?;
    let reply = table.apply(&client(1), 9, &Request::Restore { pin: PIN })?;
    let given = Response::Restore {
        status: OK,
        secret: Bytes::from_slice(rt.alloc(), &[0xaa; 16])?,
        tries: 3,
    };
    assert_eq!(rt; reply, Reply::Applied(given));
    assert_eq!(rt; table.look(&client(1)).map(|row| row.last), Some(9));
    Ok(())
}

#[test]
fn a_second_client_finds_no_room(rt: HostRuntime) -> Result<(), Fail> {
    let alloc = rt.alloc();
    let mut table = Table::new(alloc, 1);
    let _first = table.apply(&client(1), 1, &backup(alloc)?)?;
    assert_eq!(rt;
        table.apply(&client(2), 1, &backup(alloc)?)?,
        Reply::TableFull(1)
    );
    assert_eq!(rt; table.count(), 1);
    assert_eq!(rt; table.limit(), 1);
    Ok(())
}

#[test]
fn rows_are_copied_in_the_order_of_clients(rt: HostRuntime) -> Result<(), Fail> {
    let alloc = rt.alloc();
    let mut table = Table::new(alloc, 3);
    assert!(rt; table.add_row(row(alloc, 2)?)?);
    assert!(rt; table.add_row(row(alloc, 3)?)?);
    assert!(rt; table.add_row(row(alloc, 1)?)?);
    assert!(rt; !table.add_row(row(alloc, 1)?)?);
    let rows = table.copy()?.rows_from(1, 5)?;
    assert_eq!(rt;
        rows.as_slice(),
        [row(alloc, 2)?, row(alloc, 3)?].as_slice()
    );
    Ok(())
}

#[test]
fn a_table_takes_more_rows_than_a_page(rt: HostRuntime) -> Result<(), Fail> {
    let alloc = rt.alloc();
    let mut table: TableOver<SortedRows> = TableOver::new(alloc, 1000);
    for n in 0..600u16 {
        // every second client comes before all that are there
        let client = if n % 2 == 0 { 1000 + n } else { 1000 - n };
        assert!(rt; table.add_row(row(alloc, client)?)?);
    }
    assert_eq!(rt; table.count(), 600);
    let rows = table.rows_from(299, 2)?;
    assert_eq!(rt;
        rows.as_slice(),
        [row(alloc, 999)?, row(alloc, 1000)?].as_slice()
    );
    assert_eq!(rt; table.look(&client(1598)), Some(&row(alloc, 1598)?));
    Ok(())
}

#[test]
fn a_store_keeps_its_rows_in_order(rt: HostRuntime) -> Result<(), Fail> {
    let mut rows = SortedRows::empty(rt.alloc());
    rows.put(row(rt.alloc(), 2)?)?;
    rows.put(row(rt.alloc(), 1)?)?;
    let copy = rows.copy()?;
    assert_eq!(rt; copy.count(), 2);
    assert_eq!(rt; copy.place(0), Some(&row(rt.alloc(), 1)?));
    assert_eq!(rt; copy.find(&client(2)), Some(&row(rt.alloc(), 2)?));
    Ok(())
}

#[test]
fn a_row_is_changed_in_its_place(rt: HostRuntime) -> Result<(), Fail> {
    let mut changed = row(rt.alloc(), 1)?;
    change_row(&mut changed, 7, Change::Forget);
    assert_eq!(rt; changed.last, 7);
    assert!(rt; changed.kept.is_none());
    Ok(())
}

/// Puts a row where there is room for one more.
fn put(rows: &mut TreeRows, row: Row) -> Result<(), Memory> {
    if rows.count() < 20_000 {
        rows.put(row)?;
    }
    Ok(())
}

/// Adds rows of clients 1 to n, in rising order.
fn fill(rows: &mut TreeRows, alloc: Global, n: u16) -> Result<(), Memory> {
    for client in 1..=n {
        put(rows, row(alloc, client)?)?;
    }
    Ok(())
}

#[test]
fn rows_in_rising_order_keep_the_tree_low(rt: HostRuntime) -> Result<(), Fail> {
    let mut rows = TreeRows::empty(rt.alloc());
    assert!(rt; rows.root().is_none());
    fill(&mut rows, rt.alloc(), 20_000)?;
    assert_eq!(rt; rows.count(), 20_000);
    assert!(rt; rows.height() >= 15);
    assert!(rt; rows.height() <= 29);
    assert_eq!(rt; rows.root().map(|node| node.size), Some(20_000));
    Ok(())
}

#[test]
fn a_copy_keeps_its_rows(rt: HostRuntime) -> Result<(), Fail> {
    let alloc = rt.alloc();
    let mut rows = TreeRows::empty(alloc);
    fill(&mut rows, alloc, 3)?;
    let copy = rows.copy()?;
    let mut changed = row(alloc, 1)?;
    changed.last = 9;
    put(&mut rows, changed)?;
    put(&mut rows, row(alloc, 4)?)?;
    assert_eq!(rt; copy.count(), 3);
    assert_eq!(rt; copy.find(&client(1)), Some(&row(alloc, 1)?));
    assert_eq!(rt; rows.find(&client(1)).map(|row| row.last), Some(9));
    assert_eq!(rt; rows.place(3), Some(&row(alloc, 4)?));
    Ok(())
}

/// What a table of two rows replies to backups and guesses of three clients.
fn replies<T: RowStore + Drop>(alloc: Global) -> Result<Vec<Reply>, Memory> {
    let mut table: TableOver<T> = TableOver::new(alloc, 2);
    let mut replies = Vec::new(alloc);
    for n in 1..=9u16 {
        let asker = client(n % 3);
        replies.push(table.apply(&asker, u64::from(n), &backup(alloc)?)?)?;
        let guess = Request::Restore { pin: PIN };
        replies.push(table.apply(&asker, u64::from(n) + 1, &guess)?)?;
    }
    Ok(replies)
}

#[test]
fn both_stores_give_the_same_replies(rt: HostRuntime) -> Result<(), Fail> {
    let tree = replies::<TreeRows>(rt.alloc())?;
    let sorted = replies::<SortedRows>(rt.alloc())?;
    assert_eq!(rt; tree.len(), 18);
    assert_eq!(rt; tree, sorted);
    Ok(())
}
