use crate::{Side, TagEnd, WrongTag, hmac, relay};
use std::test::Fail;
use values::{Bytes, Hash};

const KEY: [u8; 32] = [7; 32];

// The cases 1 to 4 of RFC 4231.
#[test]
fn known_answers(rt: HostRuntime) {
    let counting =
        b"\x01\x02\x03\x04\x05\x06\x07\x08\x09\x0a\x0b\x0c\x0d\x0e\x0f\x10\x11\x12\x13\x14\x15\x16\x17\x18\x19";
    assert_eq!(rt;
        hmac(&[0x0b; 20], b"Hi There"),
        Hash([
            0xb0, 0x34, 0x4c, 0x61, 0xd8, 0xdb, 0x38, 0x53, 0x5c, 0xa8, 0xaf, 0xce, 0xaf, 0x0b,
            0xf1, 0x2b, 0x88, 0x1d, 0xc2, 0x00, 0xc9, 0x83, 0x3d, 0xa7, 0x26, 0xe9, 0x37, 0x6c,
            0x2e, 0x32, 0xcf, 0xf7,
        ])
    );
    assert_eq!(rt;
        hmac(b"Jefe", b"what do ya want for nothing?"),
        Hash([
            0x5b, 0xdc, 0xc1, 0x46, 0xbf, 0x60, 0x75, 0x4e, 0x6a, 0x04, 0x24, 0x26, 0x08, 0x95,
            0x75, 0xc7, 0x5a, 0x00, 0x3f, 0x08, 0x9d, 0x27, 0x39, 0x83, 0x9d, 0xec, 0x58, 0xb9,
            0x64, 0xec, 0x38, 0x43,
        ])
    );
    assert_eq!(rt;
        hmac(&[0xaa; 20], &[0xdd; 50]),
        Hash([
            0x77, 0x3e, 0xa9, 0x1e, 0x36, 0x80, 0x0e, 0x46, 0x85, 0x4d, 0xb8, 0xeb, 0xd0, 0x91,
            0x81, 0xa7, 0x29, 0x59, 0x09, 0x8b, 0x3e, 0xf8, 0xc1, 0x22, 0xd9, 0x63, 0x55, 0x14,
            0xce, 0xd5, 0x65, 0xfe,
        ])
    );
    assert_eq!(rt;
        hmac(counting, &[0xcd; 50]),
        Hash([
            0x82, 0x55, 0x8a, 0x38, 0x9a, 0x44, 0x3c, 0x0e, 0xa4, 0xcc, 0x81, 0x98, 0x99, 0xf2,
            0x08, 0x3a, 0x85, 0xf0, 0xfa, 0xa3, 0xe5, 0x78, 0xf8, 0x07, 0x7a, 0x2e, 0x3f, 0xf4,
            0x67, 0x29, 0x66, 0x5b,
        ])
    );
}

// Both tags by another implementation of HMAC-SHA-256.
#[test]
fn frames_of_both_sides(rt: HostRuntime) -> Result<(), Fail> {
    let mut host = TagEnd::new(KEY, Side::Host);
    let mut enclave = TagEnd::new(KEY, Side::Enclave);
    let mut out = vec![in rt.alloc(); 9]?;
    host.seal(b"hello", &mut out)?;
    let asked = Hash([
        0x50, 0x86, 0xe3, 0xf2, 0xc4, 0x44, 0xf2, 0xd4, 0x70, 0xa6, 0xd6, 0x8d, 0xe3, 0x39, 0x89,
        0x19, 0xc2, 0x7c, 0xac, 0xe3, 0x51, 0x22, 0x03, 0x27, 0x80, 0xc3, 0x6a, 0x5b, 0xfb, 0x64,
        0xc6, 0x92,
    ]);
    assert_eq!(rt; &out.as_slice()[..10], b"\x09\0\0\0\x05hello".as_slice());
    assert_eq!(rt; &out.as_slice()[10..], asked.0.as_slice());
    assert_eq!(rt; enclave.check(b"hello", &asked), Ok(()));
    enclave.next_tag(b"");
    let answered = Hash([
        0x5d, 0x32, 0x7f, 0x1d, 0x63, 0xe9, 0xd6, 0xf2, 0xe7, 0xfc, 0x60, 0x02, 0x93, 0xcc, 0xf8,
        0xb4, 0x12, 0xa6, 0xcb, 0x71, 0x0f, 0xcf, 0xe5, 0x02, 0xf0, 0xb8, 0x01, 0x1f, 0x6c, 0xc9,
        0x75, 0xc3,
    ]);
    assert_eq!(rt; enclave.next_tag(b"bye"), answered);
    Ok(())
}

#[test]
fn only_the_frame_that_is_due_passes(rt: HostRuntime) {
    let mut host = TagEnd::new(KEY, Side::Host);
    let mut enclave = TagEnd::new(KEY, Side::Enclave);
    let first = host.next_tag(b"one");
    let second = host.next_tag(b"two");
    let other = TagEnd::new([8; 32], Side::Host).next_tag(b"one");
    assert_eq!(rt; enclave.check(b"one", &other), Err(WrongTag { counter: 0 }));
    assert_eq!(rt;
        enclave.check(b"two", &second),
        Err(WrongTag { counter: 0 })
    );
    assert_eq!(rt; enclave.check(b"one", &first), Ok(()));
    assert_eq!(rt; enclave.check(b"one", &first), Err(WrongTag { counter: 1 }));
    assert_eq!(rt;
        enclave.check(b"TWO", &second),
        Err(WrongTag { counter: 1 })
    );
    assert_eq!(rt; enclave.check(b"two", &second), Ok(()));
    assert_eq!(rt; host.check(b"one", &first), Err(WrongTag { counter: 0 }));
}

#[test]
fn relayed_in_another_order(rt: HostRuntime) -> Result<(), Fail> {
    let alloc = rt.alloc();
    let contents = [
        Bytes::from_slice(alloc, b"a")?,
        Bytes::from_slice(alloc, b"a")?,
        Bytes::from_slice(alloc, b"")?,
        Bytes::from_slice(alloc, b"d")?,
        Bytes::from_slice(alloc, b"e")?,
    ];
    assert_eq!(rt; relay(alloc, KEY, &contents, &[0, 0, 2, 1, 4, 2])?, 3);
    Ok(())
}
