//! A worked client, and tables of what its wants and the answers come to.

use crate::Client;
use std::alloc::{AllocError, Global};
use std::test::Fail;
use values::{
    Answer, Bytes, ClientId, Hash, Memory, Part, Reply, Report, Response, Want, WantFault,
};

const SECRET: [u8; 16] = [0xaa; 16];

const PIN: Hash = Hash([0x11; 32]);

const WRONG: Hash = Hash([0x22; 32]);

fn store(alloc: Global, tries: u32) -> Result<Want, Memory> {
    Ok(Want::Store {
        secret: Bytes::from_slice(alloc, &SECRET)?,
        pin: PIN,
        tries,
    })
}

fn done(response: Response) -> Answer {
    Answer::Outcome(2, Reply::Applied(response))
}

fn joined(alloc: Global, parts: &[&[u8]]) -> Result<Vec<u8>, AllocError> {
    let mut bytes = Vec::new(alloc);
    for part in parts {
        bytes.extend_from_slice(part)?;
    }
    Ok(bytes)
}

/// Whether the client says the request of this number and these bytes.
fn says(alloc: Global, client: &Client, number: u64, parts: &[&[u8]]) -> Result<bool, Fail> {
    let (said, request) = client.say(alloc)?.ok_or("in flight")?;
    let bytes = joined(alloc, parts)?;
    Ok(said == number && request.as_slice() == bytes.as_slice())
}

#[test]
fn a_store_and_a_wrong_pin(rt: HostRuntime) -> Result<(), Fail> {
    let alloc = rt.alloc();
    let mut client = Client::new(ClientId([1; 16]));
    assert_eq!(rt; client.id(), ClientId([1; 16]));
    assert_eq!(rt; client.say(alloc)?, None);

    client
        .want(store(alloc, 3)?)
        .map_err(|_| "the store is taken up")?;
    let backup: [&[u8]; 5] = [
        b"\x12\x36\x0a\x10",
        &SECRET,
        b"\x12\x20",
        &PIN.0,
        b"\x18\x03",
    ];
    assert!(rt; says(alloc, &client, 1, &backup)?);
    assert_eq!(rt; client.want(Want::Erase), Err(WantFault::ClientBusy));
    assert_eq!(rt; client.hear(1, done(Response::Backup { status: 1 })), None);

    assert!(rt; says(alloc, &client, 2, &[b"\x2a\x12\x0a\x10", &SECRET])?);
    // an answer to the backup comes a second time
    assert_eq!(rt; client.hear(1, done(Response::Backup { status: 1 })), None);
    let stored = client.hear(2, done(Response::Expose { status: 1 }));
    assert_eq!(rt; stored, Some(Report::Stored));
    assert_eq!(rt; client.flight(), None);

    client
        .want(Want::Recover { pin: WRONG })
        .map_err(|_| "the recovery is taken up")?;
    assert!(rt; says(alloc, &client, 3, &[b"\x1a\x22\x0a\x20", &WRONG.0])?);
    let secret = Bytes::from_slice(alloc, &[])?;
    let refused = Response::Restore {
        status: 3,
        secret,
        tries: 2,
    };
    let report = client.hear(3, done(refused));
    assert_eq!(rt; report, Some(Report::WrongPin { left: 2 }));
    Ok(())
}

#[test]
fn what_an_answer_to_a_restore_comes_to(rt: HostRuntime) -> Result<(), Fail> {
    let alloc = rt.alloc();
    let restored = |status, tries| -> Result<Answer, Memory> {
        let secret = Bytes::from_slice(alloc, &SECRET)?;
        Ok(done(Response::Restore {
            status,
            secret,
            tries,
        }))
    };
    let secret = Bytes::from_slice(alloc, &SECRET)?;
    for (answer, report) in [
        (restored(1, 3)?, Some(Report::Recovered { secret, left: 3 })),
        (restored(2, 0)?, Some(Report::Missing)),
        (restored(3, 0)?, Some(Report::WrongPin { left: 0 })),
        (restored(4, 3)?, None),
        (done(Response::Delete), None),
        (
            Answer::Outcome(2, Reply::TableFull(100)),
            Some(Report::Full { rows: 100 }),
        ),
        (
            Answer::Outcome(2, Reply::Stale(7)),
            Some(Report::Undecided { last: 7 }),
        ),
        (
            Answer::Undecided(2, PIN, WRONG),
            Some(Report::Undecided { last: 1 }),
        ),
        (Answer::NotLeader(2), None),
        (Answer::Busy(1_024), None),
        (Answer::Malformed(0), None),
        (Answer::Invalid(Part::Nothing, 0), None),
        (Answer::Halted(2), None),
    ] {
        let mut client = Client::new(ClientId([1; 16]));
        client
            .want(Want::Recover { pin: PIN })
            .map_err(|_| "the recovery is taken up")?;
        let waits = report.is_none();
        assert_eq!(rt; client.hear(1, answer), report);
        assert_eq!(rt; client.flight().is_some(), waits);
    }
    Ok(())
}

#[test]
fn what_is_not_taken_up(rt: HostRuntime) -> Result<(), Fail> {
    let alloc = rt.alloc();
    let mut client = Client::new(ClientId([1; 16]));
    assert_eq!(rt;
        client.want(store(alloc, 256)?),
        Err(WantFault::Size(Part::Tries, 256))
    );
    client
        .want(Want::Erase)
        .map_err(|_| "the erasure is taken up")?;
    // all numbers but one are used
    let stale = Answer::Outcome(2, Reply::Stale(u64::MAX - 1));
    assert_eq!(rt;
        client.hear(1, stale),
        Some(Report::Undecided { last: u64::MAX - 1 })
    );
    assert_eq!(rt;
        client.want(store(alloc, 3)?),
        Err(WantFault::NumbersOut(u64::MAX - 1))
    );
    assert_eq!(rt; client.want(Want::Erase), Ok(()));
    assert_eq!(rt;
        client.hear(u64::MAX, done(Response::Delete)),
        Some(Report::Deleted)
    );
    assert_eq!(rt;
        client.want(Want::Erase),
        Err(WantFault::NumbersOut(u64::MAX))
    );
    Ok(())
}
