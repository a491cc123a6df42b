use crate::{Writer, array_at, end, read_u32s, u8_at, u32_at, u64_at};
use std::test::Fail;

const BYTES: [u8; 16] = [7, 0, 0, 1, 2, 0, 0, 0, 0, 0, 0, 3, 4, b'a', b'b', b'c'];

#[test]
fn fields_of_given_bytes(rt: HostRuntime) -> Result<(), Fail> {
    let (byte, rest) = u8_at(&BYTES).ok_or("a byte")?;
    let (small, rest) = u32_at(rest).ok_or("four bytes")?;
    let (large, rest) = u64_at(rest).ok_or("eight bytes")?;
    let (block, rest) = array_at::<2>(rest).ok_or("two bytes")?;
    assert_eq!(rt; byte, 7);
    assert_eq!(rt; small, 258);
    assert_eq!(rt; large, 772);
    assert_eq!(rt; block, *b"ab");
    assert_eq!(rt; rest, b"c".as_slice());
    assert!(rt; u32_at(rest).is_none());
    Ok(())
}

#[test]
fn bytes_of_given_fields(rt: HostRuntime) -> Result<(), Fail> {
    let mut writer = Writer::behind(vec![in rt.alloc(); 9, 8]?);
    writer.u8(7)?;
    writer.u32(258)?;
    writer.u64(772)?;
    writer.bytes(b"abc")?;
    writer.counted(&[5])?;
    let out = writer.finish();
    assert_eq!(rt; out.len(), 23);
    assert_eq!(rt; &out.as_slice()[..2], [9, 8].as_slice());
    assert_eq!(rt; &out.as_slice()[2..18], BYTES.as_slice());
    assert_eq!(rt; &out.as_slice()[18..], [1, 0, 0, 0, 5].as_slice());
    assert_eq!(rt; Writer::behind(out).undo().len(), 23);
    Ok(())
}

#[test]
fn numbers_that_are_all_the_bytes(rt: HostRuntime) -> Result<(), Fail> {
    let mut numbers = [0; 2];
    read_u32s(&[0, 0, 1, 2, 255, 255, 255, 255], &mut numbers);
    assert_eq!(rt; numbers, [258, u32::MAX]);
    assert!(rt; end(&[]).is_some() && end(&[0]).is_none());
    Ok(())
}
