use crate::{LinkFault, Links, wrap};
use std::test::Fail;

#[test]
fn a_frame_goes_from_one_to_the_other(rt: HostRuntime) -> Result<(), Fail> {
    let mut links = Links::new(rt.alloc());
    links.add(2)?;
    let frame = wrap(rt.alloc(), 2, 65_535, b"hello")?;
    assert_eq!(rt; frame.as_slice(), b"\0\0\0\x02\0\0\xff\xffhello".as_slice());
    let (from, message) = links.accept_frame(65_535, frame.as_slice())?;
    assert_eq!(rt; from, 2);
    assert_eq!(rt; message, b"hello".as_slice());
    Ok(())
}

#[test]
fn the_first_fault_counts(rt: HostRuntime) -> Result<(), Fail> {
    let mut links = Links::new(rt.alloc());
    links.add(2)?;
    links.add(3)?;
    links.add(2)?;
    let frame = b"\0\0\0\x02\0\0\0\x01";
    assert!(rt; links.holds(3) && !links.holds(4));
    assert!(rt; links.accept_frame(1, frame).is_ok());
    assert_eq!(rt;
        links.accept_frame(1, &frame[..7]).err(),
        Some(LinkFault::Short(7))
    );
    assert_eq!(rt; links.accept_frame(1, b"").err(), Some(LinkFault::Short(0)));
    assert_eq!(rt;
        links.accept_frame(2, frame).err(),
        Some(LinkFault::NotForMe(1))
    );
    let unlinked = b"\0\0\0\x04\0\0\0\x01";
    assert_eq!(rt;
        links.accept_frame(2, unlinked).err(),
        Some(LinkFault::NotForMe(1))
    );
    assert_eq!(rt;
        links.accept_frame(1, unlinked).err(),
        Some(LinkFault::NoLink(4))
    );
    Ok(())
}
