ghost use Rattle.std.specs.Prelude.{◌<◌, length};
ghost use Rattle.host_inputs.specs.Inputs.{input_of, listed_in};

use crate::{HostFault, HostIn, read_host, write_host};
use group_quorum::ConfigFault;
use std::test::Fail;
use values::{ClientId, Ids};

// The content of the first frame of a session of one voter.
const BEGIN: [u8; 15] = [1, 0, 0, 0, 1, 0, 0, 0, 0, 100, 1, 0, 0, 0, 1];

/// The fault of a content, if it has one.
fn fault(rt: &HostRuntime, content: &[u8]) -> Option<HostFault> {
    match read_host(rt.alloc(), content) {
        Ok(_) => None,
        Err(fault) => Some(fault),
    }
}

/// Whether the input is written as these bytes, and these bytes are read.
fn is_written(rt: &HostRuntime, input: &HostIn<'_>, bytes: &[u8]) -> bool
    requires { length (listed_in (input_of input.now)) < 256 }
{
    match write_host(rt.alloc(), input) {
        Ok(written) => written.as_slice() == bytes && fault(rt, bytes).is_none(),
        Err(_) => false,
    }
}

#[test]
fn each_kind_is_written(rt: HostRuntime) -> Result<(), Fail> {
    let one = Ids::from_slice(rt.alloc(), &[1])?.ok_or("rising")?;
    assert_eq!(rt; one.len(), 1);
    let begin = HostIn::Begin {
        id: 1,
        margin: 0,
        limit: 100,
        voters: one,
    };
    assert!(rt; is_written(&rt, &begin, &BEGIN));
    assert!(rt; is_written(&rt, &HostIn::Tick, &[3]));
    assert!(rt; is_written(&rt, &HostIn::Peer { frame: b"abc" }, b"\x04abc"));
    let client = HostIn::Client {
        client: ClientId([7; 16]),
        number: 258,
        request: b"r",
    };
    assert!(rt;
        is_written(
            &rt,
            &client,
            b"\x05\x07\x07\x07\x07\x07\x07\x07\x07\x07\x07\x07\x07\x07\x07\x07\x07\0\0\0\0\0\0\x01\x02r"
        )
    );
    assert!(rt; is_written(&rt, &HostIn::Join { id: 2 }, &[6, 0, 0, 0, 2]));
    assert!(rt; is_written(&rt, &HostIn::Admit { id: 2 }, &[7, 0, 0, 0, 2]));
    assert!(rt; is_written(&rt, &HostIn::Remove { id: 2 }, &[8, 0, 0, 0, 2]));
    assert!(rt; is_written(&rt, &HostIn::Save, &[9]));
    assert!(rt; is_written(&rt, &HostIn::Roll { k: 0 }, &[10, 0, 0, 0, 0]));
    assert!(rt; is_written(&rt, &HostIn::Link { id: 65_535 }, &[11, 0, 0, 255, 255]));
    assert!(rt; is_written(&rt, &HostIn::Margin { margin: 15 }, &[12, 15]));
    Ok(())
}

#[test]
fn an_id_that_is_linked_twice_stands_once(rt: HostRuntime) -> Result<(), Fail> {
    let content = [2, 0, 0, 0, 9, 3, 0, 0, 0, 8, 0, 0, 0, 1, 0, 0, 0, 8];
    match read_host(rt.alloc(), &content)? {
        HostIn::Learn { id, linked } => {
            assert_eq!(rt; id, 9);
            assert_eq!(rt; linked.as_slice(), [1, 8].as_slice());
        }
        _ => panic!(rt; "no Learn"),
    }
    Ok(())
}

#[test]
fn the_first_fault_counts(rt: HostRuntime) {
    assert_eq!(rt; fault(&rt, &[]), Some(HostFault::Kind(0)));
    assert_eq!(rt; fault(&rt, &[99]), Some(HostFault::Kind(99)));
    assert_eq!(rt; fault(&rt, &[3, 99]), Some(HostFault::Length(2)));
    assert_eq!(rt; fault(&rt, &BEGIN[..14]), Some(HostFault::Length(14)));
    assert_eq!(rt; fault(&rt, &[5; 24]), Some(HostFault::Length(24)));
    assert_eq!(rt;
        fault(&rt, &[6, 0, 1, 0, 0]),
        Some(HostFault::BadId(65_536))
    );
    assert_eq!(rt;
        fault(&rt, &[12, 16]),
        Some(HostFault::Setup(ConfigFault::TooFew(0)))
    );
    let mut begin = BEGIN;
    begin[4] = 2;
    assert_eq!(rt;
        fault(&rt, &begin),
        Some(HostFault::Setup(ConfigFault::BadId(2)))
    );
    begin[9] = 0;
    assert_eq!(rt;
        fault(&rt, &begin),
        Some(HostFault::Setup(ConfigFault::TooFew(0)))
    );
    begin[14] = 0;
    assert_eq!(rt; fault(&rt, &begin), Some(HostFault::BadId(0)));
}
