use super::*;
use std::test::Fail;

#[test]
fn fields_are_written(rt: HostRuntime) -> Result<(), Fail> {
    let mut writer = FieldWriter::new(rt.alloc());
    writer.varint(1, 0)?;
    writer.varint(3, 300)?;
    writer.block(5, b"")?;
    writer.block(6, b"hi")?;
    writer.message(7, b"")?;
    writer.varint(1000, u64::MAX)?;
    let bytes = writer.finish();
    let wanted = [
        0x18, 0xac, 0x02, 0x32, 2, b'h', b'i', 0x3a, 0, 0xc0, 0x3e, 0xff, 0xff, 0xff, 0xff, 0xff,
        0xff, 0xff, 0xff, 0xff, 1,
    ];
    assert_eq!(rt; bytes.as_slice(), wanted.as_slice());
    Ok(())
}

#[test]
fn fields_are_read(rt: HostRuntime) {
    let bytes = [0x10, 0xac, 0x02, 0x1a, 0x81, 0x00, 0x07];
    assert!(rt;
        matches!(
            next_field(&bytes, 0),
            Ok(Some(WireField {
                number: 2,
                payload: Payload::Varint(300),
                at: 0,
                content_at: 1,
                next: 3
            }))
        )
    );
    assert!(rt;
        matches!(
            next_field(&bytes, 3),
            Ok(Some(WireField {
                number: 3,
                payload: Payload::Block([7]),
                at: 3,
                content_at: 6,
                next: 7
            }))
        )
    );
    assert!(rt; matches!(next_field(&bytes, 7), Ok(None)));
    assert!(rt;
        matches!(
            next_field(&[0x2d, 1, 2, 3, 4], 0),
            Ok(Some(WireField {
                payload: Payload::Four([1, 2, 3, 4]),
                next: 5,
                ..
            }))
        )
    );
}

#[test]
fn faults_carry_the_offset_of_the_tag(rt: HostRuntime) {
    let long = [0xff, 0xff, 0xff, 0xff, 0xff, 0xff, 0xff, 0xff, 0xff, 0x02];
    assert_eq!(rt; next_field(&long, 0).err(), Some(WireFault::LongVarint(0)));
    assert_eq!(rt; next_field(&long, 3).err(), Some(WireFault::BadWire(3)));
    assert_eq!(rt;
        next_field(&[0x08, 0x01, 0x08, 0x80], 2).err(),
        Some(WireFault::Cut(2))
    );
    assert_eq!(rt;
        next_field(&[0x08, 0x01, 0x12, 0x02, 0x00], 2).err(),
        Some(WireFault::Cut(2))
    );
    assert_eq!(rt;
        next_field(&[0x03, 0x00], 0).err(),
        Some(WireFault::FieldZero(0))
    );
    assert_eq!(rt; next_field(&[0x0b], 0).err(), Some(WireFault::GroupWire(0)));
    assert_eq!(rt; next_field(&[0x0f], 0).err(), Some(WireFault::BadWire(0)));
}
