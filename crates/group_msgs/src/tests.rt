use super::*;
use client_msgs::write_request;
use proto_wire::WireFault;
use std::alloc::{AllocError, Global};
use std::test::Fail;
use values::{
    Body, Bytes, ClientId, Entries, Hash, Ids, Kept, LogEntry, Memory, PeerMsg, Point, Request,
    Row, Rows, TablePart,
};

const HASH: [u8; 32] = [0x11; 32];

const CLIENT: [u8; 16] = [0xcc; 16];

fn joined(alloc: Global, parts: &[&[u8]]) -> Result<Vec<u8>, AllocError> {
    let mut bytes = Vec::new(alloc);
    for part in parts {
        bytes.extend_from_slice(part)?;
    }
    Ok(bytes)
}

fn ids(alloc: Global, ids: &[u32]) -> Result<Ids, Memory> {
    Ids::from_slice(alloc, ids)?.ok_or(Memory)
}

fn ask(alloc: Global) -> Result<LogEntry, Memory> {
    let request = write_request(alloc, &Request::Restore { pin: Hash(HASH) })?;
    Ok(LogEntry {
        term: 3,
        body: Body::Ask {
            client: ClientId(CLIENT),
            number: 300,
            request,
        },
    })
}

fn append(alloc: Global) -> Result<PeerMsg, Memory> {
    let mut entries = Entries::new(alloc);
    entries.push(LogEntry {
        term: 3,
        body: Body::Noop,
    })?;
    entries.push(ask(alloc)?)?;
    entries.push(LogEntry {
        term: 4,
        body: Body::Members {
            margin: 1,
            voters: ids(alloc, &[1, 2, 65_535])?,
        },
    })?;
    Ok(PeerMsg::Append {
        term: 4,
        prev: Point {
            index: 7,
            hash: Hash(HASH),
        },
        entries,
        promise: 6,
        commit: 5,
    })
}

fn part(alloc: Global) -> Result<PeerMsg, Memory> {
    let mut rows = Rows::new(alloc);
    rows.push(Row {
        client: ClientId(CLIENT),
        last: 9,
        kept: None,
    })?;
    rows.push(Row {
        client: ClientId([0xdd; 16]),
        last: 10,
        kept: Some(Kept {
            secret: Bytes::from_slice(alloc, &[0xaa; 16])?,
            pin: Hash(HASH),
            left: 255,
            exposed: true,
        }),
    })?;
    Ok(PeerMsg::Part {
        term: 4,
        part: TablePart {
            point: Point {
                index: 9,
                hash: Hash(HASH),
            },
            last_term: 4,
            conf_index: 9,
            margin: 1,
            voters: ids(alloc, &[1, 2, 3])?,
            limit: 20_000,
            part: 0,
            parts: 1,
            rows,
        },
    })
}

/// Whether the bytes stand for the message, and the message is written as the bytes.
fn goes_both_ways(alloc: Global, bytes: &[u8], msg: &PeerMsg) -> Result<bool, Fail> {
    let read = read_peer(alloc, bytes)?;
    let written = write_peer(alloc, &read)?;
    Ok(read == *msg && written.as_slice() == bytes)
}

#[test]
fn an_append_goes_both_ways(rt: HostRuntime) -> Result<(), Fail> {
    let alloc = rt.alloc();
    let bytes = joined(
        alloc,
        &[
            b"\x08\x04\x22\x83\x01\x08\x07\x12\x20",
            &HASH,
            b"\x1a\x02\x08\x03",
            b"\x1a\x3f\x08\x03\x10\x01\x1a\x10",
            &CLIENT,
            b"\x20\xac\x02\x2a\x24\x1a\x22\x0a\x20",
            &HASH,
            b"\x1a\x14\x08\x04\x10\x02\x32\x0c\0\0\0\x01\0\0\0\x02\0\0\xff\xff\x38\x01",
            b"\x20\x06\x28\x05",
        ],
    )?;
    assert!(rt; goes_both_ways(alloc, &bytes, &append(alloc)?)?);
    Ok(())
}

#[test]
fn a_part_goes_both_ways(rt: HostRuntime) -> Result<(), Fail> {
    let alloc = rt.alloc();
    let bytes = joined(
        alloc,
        &[
            b"\x08\x04\x3a\xa3\x01\x08\x09\x12\x20",
            &HASH,
            b"\x18\x04\x20\x09\x28\x01\x32\x0c\0\0\0\x01\0\0\0\x02\0\0\0\x03",
            b"\x38\xa0\x9c\x01\x48\x01",
            b"\x52\x14\x0a\x10",
            &CLIENT,
            b"\x10\x09",
            b"\x52\x4d\x0a\x10",
            &[0xdd; 16],
            b"\x10\x0a\x1a\x10",
            &[0xaa; 16],
            b"\x22\x20",
            &HASH,
            b"\x28\xff\x01\x30\x01",
        ],
    )?;
    assert!(rt; goes_both_ways(alloc, &bytes, &part(alloc)?)?);
    Ok(())
}

#[test]
fn each_other_message_goes_both_ways(rt: HostRuntime) -> Result<(), Fail> {
    let alloc = rt.alloc();
    let top = b"\x08\x80\x80\x80\x80\x80\x80\x80\x80\x40";
    let point = Point {
        index: 1 << 62,
        hash: Hash(HASH),
    };
    let asked = PeerMsg::AskVote {
        term: 1,
        last_index: 2,
        last_term: 3,
    };
    let voted = PeerMsg::Vote {
        term: 0,
        granted: true,
    };
    let accepted = PeerMsg::Accepted {
        term: 1 << 62,
        end: point,
        promised: 0,
    };
    let rejected = PeerMsg::Rejected {
        term: 5,
        asked: 6,
        hint: 7,
    };
    let taken = PeerMsg::PartTaken {
        term: 8,
        point,
        next: u32::MAX,
    };
    let end = joined(alloc, &[top, b"\x2a\x2c", top, b"\x12\x20", &HASH])?;
    let next = b"\x18\xff\xff\xff\xff\x0f";
    let part = joined(alloc, &[b"\x08\x08\x42\x32", top, b"\x12\x20", &HASH, next])?;
    assert!(rt; goes_both_ways(alloc, b"\x08\x01\x12\x04\x08\x02\x10\x03", &asked)?);
    assert!(rt; goes_both_ways(alloc, b"\x1a\x02\x08\x01", &voted)?);
    assert!(rt; goes_both_ways(alloc, &end, &accepted)?);
    assert!(rt; goes_both_ways(alloc, b"\x08\x05\x32\x04\x08\x06\x10\x07", &rejected)?);
    assert!(rt; goes_both_ways(alloc, &part, &taken)?);
    Ok(())
}

#[test]
fn what_is_no_message(rt: HostRuntime) {
    let faults: [(&[u8], PeerFault); 12] = [
        (b"", PeerFault::Nothing),
        (b"\x08\x04", PeerFault::Nothing),
        (b"\x12\x05\x08", PeerFault::Wire(WireFault::Cut(0))),
        // Offsets count from the start, also inside an entry.
        (
            b"\x08\x01\x22\x04\x1a\x02\x08\x80",
            PeerFault::Wire(WireFault::Cut(6)),
        ),
        // A fault inside a member that is replaced comes first.
        (
            b"\x22\x03\x1a\x01\x80\x12\x00\x03\x00",
            PeerFault::Wire(WireFault::Cut(4)),
        ),
        (
            b"\x08\x81\x80\x80\x80\x80\x80\x80\x80\x40\x12\x00",
            PeerFault::Range(1),
        ),
        (
            b"\x12\x0a\x10\x81\x80\x80\x80\x80\x80\x80\x80\x40",
            PeerFault::Range(2),
        ),
        (b"\x22\x00", PeerFault::Size(2, 0)),
        (b"\x2a\x03\x12\x01\x05", PeerFault::Size(2, 1)),
        (b"\x3a\x00\x1a\x00\x22\x00", PeerFault::Size(2, 0)),
        // The last member counts, and begins empty behind another one.
        (b"\x12\x02\x08\x05\x42\x00", PeerFault::Size(2, 0)),
        (
            b"\x12\x09\x08\x01\x10\x81\x80\x80\x80\x80\x80\x80",
            PeerFault::Wire(WireFault::Cut(4)),
        ),
    ];
    for (bytes, fault) in faults {
        assert_eq!(rt; read_peer(rt.alloc(), bytes).err(), Some(fault));
    }
}

/// The fault of an append at index 0 with this entry.
fn entry_fault(alloc: Global, entry: &[u8]) -> Result<Option<PeerFault>, AllocError> {
    let len = entry.len().min(90) as u8;
    let bytes = joined(
        alloc,
        &[
            b"\x22",
            &[len + 36],
            b"\x12\x20",
            &HASH,
            b"\x1a",
            &[len],
            entry,
        ],
    )?;
    Ok(read_peer(alloc, &bytes).err())
}

#[test]
fn faults_of_entries(rt: HostRuntime) -> Result<(), Fail> {
    let rows: [(&[u8], Option<PeerFault>); 11] = [
        (b"", None),
        (b"\x10\x03", Some(PeerFault::Range(2))),
        // A kind of 32 bits keeps the low ones.
        (b"\x10\x80\x80\x80\x80\x10", None),
        (b"\x10\x01", Some(PeerFault::Size(3, 0))),
        (
            b"\x10\x01\x1a\x10cccccccccccccccc\x2a\x03\x22\x80\x00",
            Some(PeerFault::NotCanonical(0)),
        ),
        (b"\x10\x01\x1a\x10cccccccccccccccc\x2a\x02\x22\x00", None),
        (b"\x10\x02\x32\x03\0\0\x01", Some(PeerFault::Size(6, 3))),
        (b"\x10\x02\x32\x04\0\0\0\0", Some(PeerFault::Range(6))),
        (
            b"\x10\x02\x32\x08\0\0\0\x02\0\0\0\x02",
            Some(PeerFault::Range(6)),
        ),
        // A margin of 1 needs three voters.
        (
            b"\x10\x02\x32\x08\0\0\0\x01\0\0\0\x02\x38\x01",
            Some(PeerFault::Range(7)),
        ),
        (b"\x10\x02\x32\x08\0\0\0\x01\0\0\0\x02", None),
    ];
    for (entry, fault) in rows {
        assert_eq!(rt; entry_fault(rt.alloc(), entry)?, fault);
    }
    Ok(())
}
