ghost use Rattle.std.specs.Prelude.{◌≡◌};
ghost use Rattle.host_msgs.specs.Batches.{none_yet};

use crate::{BatchFault, read_batch, write_batch};
use std::alloc::{AllocError, Global};
use std::test::Fail;
use values::{
    Answer, AnswerList, Batch, Body, Bytes, ClientId, CommitList, Hash, Ids, Items, LogEntry,
    Memory, Part, PeerMsg, Point, Refusal, Reply, Response,
};

const HASH: [u8; 32] = [0x11; 32];

const CLIENT: [u8; 16] = [0xcc; 16];

/// The number 300 in eight bytes.
const NUMBER: &[u8] = b"\0\0\0\0\0\0\x01\x2c";

// What one voter's first batch says: it leads in term 1, and committed the empty entry of its term.
const FIRST: [u8; 35] = [
    1, 0, 0, 0, 8, 0, 0, 0, 0, 0, 0, 0, 1, 5, 0, 0, 0, 17, 0, 0, 0, 0, 0, 0, 0, 1, 0, 0, 0, 0, 0,
    0, 0, 1, 0,
];

fn empty(alloc: Global) -> Batch
    ensures { result ≡ none_yet.batch }
{
    Batch {
        lead: None,
        members: Items::new(alloc),
        halt: None,
        taken: None,
        commits: Items::new(alloc),
        answers: Items::new(alloc),
        sent: Items::new(alloc),
        saved: None,
        refused: None,
    }
}

/// The offset of the first item of a content that is outside the grammar, if one is.
fn bad_item(alloc: Global, content: &[u8]) -> Option<u64> {
    match read_batch(alloc, content) {
        Err(BatchFault::At(offset)) => Some(offset),
        _ => None,
    }
}

#[test]
fn the_first_batch_of_one_voter(rt: HostRuntime) -> Result<(), Fail> {
    let (sender, batch, frames) = read_batch(rt.alloc(), &FIRST)?;
    assert_eq!(rt; sender, 0);
    assert_eq!(rt; batch.lead, Some(1));
    assert_eq!(rt; batch.commits.len(), 1);
    assert_eq!(rt; frames.len(), 0);
    Ok(())
}

#[test]
fn the_offset_is_that_of_the_first_bad_item(rt: HostRuntime) {
    assert_eq!(rt; bad_item(rt.alloc(), &FIRST[..34]), Some(13));
    assert_eq!(rt; bad_item(rt.alloc(), &FIRST[..12]), Some(0));
    assert_eq!(rt;
        bad_item(
            rt.alloc(),
            &[8, 0, 0, 0, 4, 0, 0, 0, 1, 8, 0, 0, 0, 4, 0, 0, 0, 1]
        ),
        Some(9)
    );
    assert_eq!(rt;
        bad_item(rt.alloc(), &[8, 0, 0, 0, 4, 0, 0, 0, 1, 1]),
        Some(9)
    );
    assert_eq!(rt; bad_item(rt.alloc(), &[10, 0, 0, 0, 0]), Some(0));
    assert_eq!(rt; bad_item(rt.alloc(), &[1, 255, 255, 255, 255, 0]), Some(0));
}

#[test]
fn a_batch_is_written_behind_bytes(rt: HostRuntime) -> Result<(), Fail> {
    let mut batch = empty(rt.alloc());
    batch.lead = Some(1);
    batch.saved = Some(2);
    batch.refused = Some(Refusal::SameMargin(3));
    let mut out = vec![in rt.alloc(); 7]?;
    write_batch(rt.alloc(), 1, &batch, &mut out)?;
    assert_eq!(rt;
        out.as_slice(),
        [
            7, 1, 0, 0, 0, 8, 0, 0, 0, 0, 0, 0, 0, 1, 8, 0, 0, 0, 4, 0, 0, 0, 2, 9, 0, 0, 0, 17,
            13, 0, 0, 0, 0, 0, 0, 0, 3, 0, 0, 0, 0, 0, 0, 0, 0
        ]
        .as_slice()
    );
    let (sender, read, _) = read_batch(rt.alloc(), &out.as_slice()[1..])?;
    assert_eq!(rt; sender, 0);
    assert_eq!(rt; read, batch);
    Ok(())
}

fn joined(alloc: Global, parts: &[&[u8]]) -> Result<Vec<u8>, AllocError> {
    let mut bytes = Vec::new(alloc);
    for part in parts {
        bytes.extend_from_slice(part)?;
    }
    Ok(bytes)
}

fn one_and_two(alloc: Global) -> Result<Ids, Memory> {
    Ids::from_slice(alloc, &[1, 2])?.ok_or(Memory)
}

/// An entry of each body.
fn commits(alloc: Global) -> Result<CommitList, Memory> {
    let request = Bytes::from_slice(
        alloc,
        joined(alloc, &[b"\x1a\x22\x0a\x20", &HASH])?.as_slice(),
    )?;
    let bodies = [
        Body::Noop,
        Body::Ask {
            client: ClientId(CLIENT),
            number: 300,
            request,
        },
        Body::Members {
            margin: 0,
            voters: one_and_two(alloc)?,
        },
    ];
    let mut commits = CommitList::new(alloc);
    for body in bodies {
        commits.push((5, LogEntry { term: 3, body }))?;
    }
    Ok(commits)
}

/// An answer of each kind.
fn answers(alloc: Global) -> Result<AnswerList, Memory> {
    let answers = [
        Answer::Outcome(5, Reply::Applied(Response::Delete)),
        Answer::Outcome(5, Reply::Stale(7)),
        Answer::Outcome(5, Reply::TableFull(8)),
        Answer::NotLeader(2),
        Answer::Busy(3),
        Answer::Malformed(4),
        Answer::Invalid(Part::Pin, 31),
        Answer::Halted(5),
        Answer::Undecided(5, Hash(HASH), Hash(HASH)),
    ];
    let mut told = AnswerList::new(alloc);
    for answer in answers {
        told.push((ClientId(CLIENT), 300, answer))?;
    }
    Ok(told)
}

/// The items that stand at most once before the entries, and a configuration.
fn first_items(alloc: Global) -> Result<Vec<u8>, AllocError> {
    joined(
        alloc,
        &[
            b"\x01\0\0\0\x08\0\0\0\0\0\0\0\x09",
            b"\x02\0\0\0\x11\0\0\0\0\0\0\0\x05\0\0\0\0\x01\0\0\0\x02",
            b"\x03\0\0\0\x48\0\0\0\0\0\0\0\x05",
            &HASH,
            &HASH,
            b"\x04\0\0\0\x28\0\0\0\0\0\0\0\x05",
            &HASH,
        ],
    )
}

/// The items of the entries.
fn commit_items(alloc: Global) -> Result<Vec<u8>, AllocError> {
    joined(
        alloc,
        &[
            b"\x05\0\0\0\x11\0\0\0\0\0\0\0\x05\0\0\0\0\0\0\0\x03\0",
            b"\x05\0\0\0\x4d\0\0\0\0\0\0\0\x05\0\0\0\0\0\0\0\x03\x01",
            &CLIENT,
            NUMBER,
            b"\x1a\x22\x0a\x20",
            &HASH,
            b"\x05\0\0\0\x1b\0\0\0\0\0\0\0\x05\0\0\0\0\0\0\0\x03\x02",
            b"\0\x02\0\0\0\x01\0\0\0\x02",
        ],
    )
}

/// The item of an answer, of so many bytes.
fn answer_item(alloc: Global, size: u8, answer: &[u8]) -> Result<Vec<u8>, AllocError> {
    joined(alloc, &[b"\x06\0\0\0", &[size], &CLIENT, NUMBER, answer])
}

/// The items of the outcomes.
fn outcome_items(alloc: Global) -> Result<Vec<u8>, AllocError> {
    let applied = answer_item(alloc, 36, b"\0\0\0\0\0\0\0\0\x05\0\x1a\0")?;
    let stale = answer_item(alloc, 42, b"\0\0\0\0\0\0\0\0\x05\x01\0\0\0\0\0\0\0\x07")?;
    let full = answer_item(alloc, 38, b"\0\0\0\0\0\0\0\0\x05\x02\0\0\0\x08")?;
    joined(
        alloc,
        &[applied.as_slice(), stale.as_slice(), full.as_slice()],
    )
}

/// The items of the other answers.
fn other_items(alloc: Global) -> Result<Vec<u8>, AllocError> {
    let not_leader = answer_item(alloc, 29, b"\x01\0\0\0\x02")?;
    let busy = answer_item(alloc, 33, b"\x02\0\0\0\0\0\0\0\x03")?;
    let malformed = answer_item(alloc, 33, b"\x04\0\0\0\0\0\0\0\x04")?;
    let invalid = answer_item(alloc, 34, b"\x05\x02\0\0\0\0\0\0\0\x1f")?;
    let halted = answer_item(alloc, 33, b"\x06\0\0\0\0\0\0\0\x05")?;
    let undecided = answer_item(alloc, 97, b"\x03\0\0\0\0\0\0\0\x05")?;
    joined(
        alloc,
        &[
            not_leader.as_slice(),
            busy.as_slice(),
            malformed.as_slice(),
            invalid.as_slice(),
            halted.as_slice(),
            undecided.as_slice(),
            &HASH,
            &HASH,
        ],
    )
}

/// The bytes of a batch of each kind of item.
fn each_kind(alloc: Global) -> Result<Vec<u8>, AllocError> {
    let first = first_items(alloc)?;
    let commits = commit_items(alloc)?;
    let outcomes = outcome_items(alloc)?;
    let others = other_items(alloc)?;
    joined(
        alloc,
        &[
            first.as_slice(),
            commits.as_slice(),
            outcomes.as_slice(),
            others.as_slice(),
            b"\x07\0\0\0\x0e\0\0\0\x01\0\0\0\x02\x08\x09\x1a\x02\x08\x01",
            b"\x08\0\0\0\x04\0\0\0\x02",
            b"\x09\0\0\0\x11\x0d\0\0\0\0\0\0\0\x03\0\0\0\0\0\0\0\0",
        ],
    )
}

#[test]
fn each_kind_of_item_is_read(rt: HostRuntime) -> Result<(), Fail> {
    let alloc = rt.alloc();
    let (sender, batch, frames) = read_batch(alloc, each_kind(alloc)?.as_slice())?;
    assert_eq!(rt; sender, 1);
    assert_eq!(rt; frames.len(), 1);
    let mut wanted = empty(alloc);
    wanted.lead = Some(9);
    wanted.members.push((5, 0, one_and_two(alloc)?))?;
    wanted.halt = Some((5, Hash(HASH), Hash(HASH)));
    wanted.taken = Some(Point {
        index: 5,
        hash: Hash(HASH),
    });
    wanted.commits = commits(alloc)?;
    wanted.answers = answers(alloc)?;
    let vote = PeerMsg::Vote {
        term: 9,
        granted: true,
    };
    wanted.sent.push((2, vote))?;
    wanted.saved = Some(2);
    wanted.refused = Some(Refusal::SameMargin(3));
    assert_eq!(rt; batch, wanted);
    Ok(())
}
