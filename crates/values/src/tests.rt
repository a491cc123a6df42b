use crate::{
    Answer, Body, Bytes, ClientId, Hash, Ids, Items, Kept, LogEntry, PeerMsg, Point, Reply,
    Response, Row, TryCopy,
};
use std::test::Fail;

#[test]
fn owned_bytes_are_those_given(rt: HostRuntime) -> Result<(), Fail> {
    let bytes = Bytes::from_slice(rt.alloc(), b"abc")?;
    assert_eq!(rt; bytes.as_slice(), b"abc".as_slice());
    assert_eq!(rt; bytes.copy(rt.alloc())?, bytes);
    Ok(())
}

#[test]
fn ids_rise(rt: HostRuntime) -> Result<(), Fail> {
    let ids = Ids::from_slice(rt.alloc(), &[1, 7, 65_535])?.ok_or("rising")?;
    assert_eq!(rt; ids.as_slice(), [1, 7, 65_535].as_slice());
    assert_eq!(rt; ids.copy(rt.alloc())?, ids);
    assert_eq!(rt; Ids::from_slice(rt.alloc(), &[1, 7, 7])?, None);
    Ok(())
}

#[test]
fn an_append_is_copied(rt: HostRuntime) -> Result<(), Fail> {
    let mut entries = Items::new(rt.alloc());
    entries.push(LogEntry {
        term: 2,
        body: Body::Ask {
            client: ClientId([9; 16]),
            number: 1,
            request: Bytes::from_slice(rt.alloc(), b"ask")?,
        },
    })?;
    let append = PeerMsg::Append {
        term: 2,
        prev: Point {
            index: 4,
            hash: Hash([5; 32]),
        },
        entries,
        promise: 4,
        commit: 3,
    };
    assert_eq!(rt; append.copy(rt.alloc())?, append);
    Ok(())
}

#[test]
fn a_row_and_an_answer_are_copied(rt: HostRuntime) -> Result<(), Fail> {
    let row = Row {
        client: ClientId([1; 16]),
        last: 3,
        kept: Some(Kept {
            secret: Bytes::from_slice(rt.alloc(), b"secret")?,
            pin: Hash([2; 32]),
            left: 5,
            exposed: true,
        }),
    };
    assert_eq!(rt; row.copy(rt.alloc())?, row);
    let answer = Answer::Outcome(6, Reply::Applied(Response::Delete));
    assert_eq!(rt; answer.copy(rt.alloc())?, answer);
    Ok(())
}
