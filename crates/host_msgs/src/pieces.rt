//! The pieces of contents, written.

ghost use Rattle.std.specs.Prelude.{◌≡◌, ◌++◌, length, OnOk};
ghost use Rattle.std.specs.Int.{w8};
ghost use Rattle.fixed_fields.specs.Fields.{number_bytes};
ghost use Rattle.fixed_fields.specs.Written.{Puts};
ghost use Rattle.host_msgs.specs.Items.{long_field, word_field};
ghost use Rattle.host_msgs.specs.Needs.{IsBlock};

use fixed_fields::Writer;
use std::alloc::AllocError;
use values::{ClientId, Hash, Memory};

/// Bytes that four bytes can count, with the few numbers that stand before them in an item.
const MOST_BYTES: usize = 1 << 31;

/// The 32 bytes of a hash.
pub fn push_hash(out: &mut Writer, hash: &Hash) -> Result<(), AllocError>
    ensures bytes { Puts result out.old out.new hash.now.0 }
    ensures size { length hash.now.0 ≡ 32 }
{
    out.bytes(&hash.0)
}

/// The 16 bytes of a client.
pub fn push_client(out: &mut Writer, client: &ClientId) -> Result<(), AllocError>
    ensures bytes { Puts result out.old out.new client.now.0 }
    ensures size { length client.now.0 ≡ 16 }
{
    out.bytes(&client.0)
}

/// Bytes of any number that an item has room for, 2^31 of them at most; `Memory` for more.
pub fn push_block(out: &mut Writer, bytes: &[u8]) -> Result<(), Memory>
    ensures puts { Puts result out.old out.new bytes.now }
    ensures short { OnOk result (IsBlock bytes.now) }
{
    if bytes.len() > MOST_BYTES {
        return Err(Memory);
    }
    out.bytes(bytes)?;
    Ok(())
}

/// A kind and a number of eight bytes.
pub fn push_long(out: &mut Writer, kind: u8, number: u64) -> Result<(), Memory>
    ensures { Puts result out.old out.new (number_bytes w8 kind ++ long_field.spelled number) }
{
    out.u8(kind)?;
    out.u64(number)?;
    Ok(())
}

/// A kind and a number of four bytes.
pub fn push_word(out: &mut Writer, kind: u8, number: u32) -> Result<(), Memory>
    ensures { Puts result out.old out.new (number_bytes w8 kind ++ word_field.spelled number) }
{
    out.u8(kind)?;
    out.u32(number)?;
    Ok(())
}
