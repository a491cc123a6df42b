use super::*;
use proto_wire::WireFault;
use std::alloc::{AllocError, Global};
use std::test::Fail;
use values::{Bytes, Hash, Part, Request, Response};

const SECRET: [u8; 16] = [0xaa; 16];

const PIN: [u8; 32] = [0x11; 32];

const LONG: [u8; 49] = [0xbb; 49];

fn joined(alloc: Global, parts: &[&[u8]]) -> Result<Vec<u8>, AllocError> {
    let mut bytes = Vec::new(alloc);
    for part in parts {
        bytes.extend_from_slice(part)?;
    }
    Ok(bytes)
}

#[test]
fn a_request_is_written_and_read_again(rt: HostRuntime) -> Result<(), Fail> {
    let alloc = rt.alloc();
    let request = Request::Backup {
        secret: Bytes::from_slice(alloc, &SECRET)?,
        pin: Hash(PIN),
        tries: 3,
    };
    assert!(rt; check_request(&request).is_ok());
    let written = write_request(alloc, &request)?;
    let spellings: [[&[u8]; 5]; 3] = [
        [b"\x12\x36\x0a\x10", &SECRET, b"\x12\x20", &PIN, b"\x18\x03"],
        // Another order, an unknown field, and the tries twice.
        [
            b"\x12\x3a\x18\x07\x12\x20",
            &PIN,
            b"\x50\x01\x0a\x10",
            &SECRET,
            b"\x18\x03",
        ],
        // In two parts.
        [
            b"\x12\x12\x0a\x10",
            &SECRET,
            b"\x12\x24\x12\x20",
            &PIN,
            b"\x18\x03",
        ],
    ];
    for parts in &spellings {
        assert_eq!(rt; read_request(alloc, &joined(alloc, parts)?)?, request);
    }
    assert_eq!(rt;
        written.as_slice(),
        joined(alloc, &spellings[0])?.as_slice()
    );
    Ok(())
}

#[test]
fn what_is_no_request(rt: HostRuntime) {
    let faults: [(&[u8], RequestFault); 6] = [
        (b"", RequestFault::Nothing),
        (b"\x12\x02\x0a\x05", RequestFault::Wire(WireFault::Cut(2))),
        (b"\x12\x05\x0a", RequestFault::Wire(WireFault::Cut(0))),
        (
            b"\x80\x80\x80\x80\x80\x80\x80\x80\x80\x80\x01",
            RequestFault::Wire(WireFault::LongVarint(0)),
        ),
        (b"\x03\x00", RequestFault::Wire(WireFault::FieldZero(0))),
        (
            b"\x12\x01\x80\x22\x00\x03\x00",
            RequestFault::Wire(WireFault::Cut(2)),
        ),
    ];
    for (bytes, fault) in faults {
        assert_eq!(rt; read_request(rt.alloc(), bytes).err(), Some(fault));
    }
}

#[test]
fn sizes(rt: HostRuntime) -> Result<(), Fail> {
    let alloc = rt.alloc();
    let rows: [([&[u8]; 5], Option<RequestFault>); 7] = [
        (
            [
                b"\x12\x35\x0a\x0f",
                &SECRET[..15],
                b"\x12\x20",
                &PIN,
                b"\x18\x03",
            ],
            Some(RequestFault::Size(Part::Secret, 15)),
        ),
        (
            [
                b"\x12\x57\x0a\x30",
                &LONG[..48],
                b"\x12\x20",
                &PIN,
                b"\x18\xff\x01",
            ],
            None,
        ),
        (
            [
                b"\x12\x58\x0a\x31",
                &LONG,
                b"\x12\x20",
                &PIN,
                b"\x18\xff\x01",
            ],
            Some(RequestFault::Size(Part::Secret, 49)),
        ),
        (
            [
                b"\x12\x35\x0a\x10",
                &SECRET,
                b"\x12\x1f",
                &PIN[..31],
                b"\x18\x03",
            ],
            Some(RequestFault::Size(Part::Pin, 31)),
        ),
        (
            [b"\x12\x34\x0a\x10", &SECRET, b"\x12\x20", &PIN, b""],
            Some(RequestFault::Size(Part::Tries, 0)),
        ),
        (
            [
                b"\x12\x37\x0a\x10",
                &SECRET,
                b"\x12\x20",
                &PIN,
                b"\x18\x80\x02",
            ],
            Some(RequestFault::Size(Part::Tries, 256)),
        ),
        // A backup behind another member begins empty.
        (
            [
                b"\x12\x12\x0a\x10",
                &SECRET,
                b"\x22\x00\x12\x24\x12\x20",
                &PIN,
                b"\x18\x03",
            ],
            Some(RequestFault::Size(Part::Secret, 0)),
        ),
    ];
    for (parts, fault) in rows {
        let bytes = joined(alloc, &parts)?;
        assert_eq!(rt; read_request(alloc, &bytes).err(), fault);
    }
    Ok(())
}

#[test]
fn a_response_is_written_and_read_again(rt: HostRuntime) -> Result<(), Fail> {
    let alloc = rt.alloc();
    let response = Response::Restore {
        status: 1,
        secret: Bytes::from_slice(alloc, &SECRET)?,
        tries: 3,
    };
    let bytes = write_response(alloc, &response)?;
    let canonical = joined(alloc, &[b"\x12\x16\x08\x01\x12\x10", &SECRET, b"\x18\x03"])?;
    assert_eq!(rt; bytes.as_slice(), canonical.as_slice());
    assert_eq!(rt; read_response(alloc, &canonical)?, response);
    assert_eq!(rt;
        read_response(alloc, b"").err(),
        Some(ResponseFault::Nothing)
    );

    // A number of 32 bits keeps the low ones of its varint.
    let wide = read_response(alloc, b"\x0a\x06\x08\x81\x80\x80\x80\x10")?;
    assert_eq!(rt; wide, Response::Backup { status: 1 });
    Ok(())
}

#[test]
fn one_spelling_of_a_request(rt: HostRuntime) -> Result<(), Fail> {
    let alloc = rt.alloc();
    for tries in [1, 127, 128, 255] {
        let request = Request::Backup {
            secret: Bytes::from_slice(alloc, &LONG[..48])?,
            pin: Hash(PIN),
            tries,
        };
        let bytes = write_request(alloc, &request)?;
        assert!(rt; is_canonical_request(bytes.as_slice()));
        assert!(rt; !is_canonical_request(&bytes.as_slice()[1..]));
    }
    assert!(rt; !is_canonical_request(b"\x22\x02\x08\x01"));
    Ok(())
}
