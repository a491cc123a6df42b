//! Whole transfers, and each public call on its happy path.

use crate::{Sending, Sent, TakePart, Taking, voters_of};
use group_quorum::Config;
use record_table::Table;
use std::alloc::Global;
use std::test::Fail;
use values::{ClientId, Hash, Memory, Point, Row};

const POINT: Point = Point {
    index: 7,
    hash: Hash([0x77; 32]),
};

fn table(alloc: Global, count: u8) -> Result<Table, Memory> {
    let mut table = Table::new(alloc, 100);
    for n in 0..count {
        let mut bytes = [0; 16];
        bytes[15] = n;
        let _added = table.add_row(Row {
            client: ClientId(bytes),
            last: u64::from(n) + 1,
            kept: None,
        })?;
    }
    Ok(table)
}

fn sending(alloc: Global, point: Point, count: u8) -> Result<Sending, Fail> {
    let config = Config::new(&[1, 2, 3], 1)?;
    Ok(Sending::new(alloc, point, 4, config, 5, table(alloc, count)?))
}

/// Hands over each part as it is outstanding. Answers the numbers of rows that went over.
fn transfer(alloc: Global, count: u8) -> Result<(Vec<usize>, Option<Table>), Fail> {
    let mut sending = sending(alloc, POINT, count)?;
    let mut taking = Taking::new(alloc);
    let mut rows = Vec::new(alloc);
    for _ in 0..625 {
        let part = sending.part()?;
        rows.push(part.rows.len())?;
        match taking.take_part(&part)? {
            TakePart::Taken(next) => {
                let _sent = sending.heard(&part.point, next);
            }
            TakePart::Whole(table) => return Ok((rows, Some(table))),
            TakePart::Other { .. } => break,
        }
    }
    Ok((rows, None))
}

#[test]
fn parts_hold_32_rows(rt: HostRuntime) -> Result<(), Fail> {
    for (count, parts) in [
        (0, [0].as_slice()),
        (32, [32].as_slice()),
        (33, [32, 1].as_slice()),
        (71, [32, 32, 7].as_slice()),
    ] {
        let (rows, whole) = transfer(rt.alloc(), count)?;
        assert_eq!(rt; rows.as_slice(), parts);
        let whole = whole.expect(&rt, "the table is whole");
        assert_eq!(rt; whole.count(), u32::from(count));
        assert_eq!(rt; whole.limit(), 100);
    }
    Ok(())
}

#[test]
fn a_part_of_another_table(rt: HostRuntime) -> Result<(), Fail> {
    let elsewhere = Point { index: 8, ..POINT };
    let mut mine = sending(rt.alloc(), POINT, 33)?;
    let mut other = sending(rt.alloc(), elsewhere, 33)?;
    let mut taking = Taking::new(rt.alloc());
    assert!(rt; matches!(taking.take_part(&mine.part()?)?, TakePart::Taken(1)));
    assert_eq!(rt; other.heard(&elsewhere, 1), Sent::Next);
    match taking.take_part(&other.part()?)? {
        TakePart::Other { point, next } => {
            assert_eq!(rt; point, POINT);
            assert_eq!(rt; next, 1);
        }
        _ => assert!(rt; false),
    }
    assert_eq!(rt; mine.heard(&elsewhere, 1), Sent::Ignored);
    assert_eq!(rt; mine.heard(&POINT, 2), Sent::Done);
    assert_eq!(rt; mine.heard(&POINT, 1), Sent::Next);
    assert_eq!(rt; mine.heard(&POINT, 1), Sent::Ignored);
    let last = mine.copy()?.part()?;
    assert!(rt; matches!(taking.copy()?.take_part(&last)?, TakePart::Whole(_)));
    Ok(())
}

#[test]
fn voters_in_rising_order(rt: HostRuntime) -> Result<(), Fail> {
    let config = Config::new(&[3, 65_535, 1], 1)?;
    let voters = voters_of(rt.alloc(), &config)?;
    assert_eq!(rt; voters.as_slice(), [1, 3, 65_535].as_slice());
    Ok(())
}
