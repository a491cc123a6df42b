//! The scalars of a message: of each number the last one.

ghost use Rattle.std.specs.Prelude.{◌≡◌, ◌≤◌, ◌<◌, ◌++◌, ◌∷◌, [], List, length, drop, OnOk, IfErr, Some, None};
ghost use Rattle.proto_wire.specs.Fields.{Field, field_of, sequence_at};
ghost use Rattle.group_msgs.specs.Known.{known_of, u64_at, u32_at, bool_at, bytes_at};
ghost use Rattle.group_msgs.specs.Gathered.{seen};

use proto_wire::{Payload, WireFault, WireField, next_field};

/// The varints of known messages have numbers below this.
const VARINTS: usize = 10;
/// The bytes of known messages have numbers below this.
const BLOCKS: usize = 7;

/// The last varint and the last block of each number, or the default where there is none.
#[derive(Clone, Copy)]
pub(crate) struct Scalars<'a> {
    varints: [u64; VARINTS],
    blocks: [&'a [u8]; BLOCKS],
}

impl<'a> Scalars<'a> {
    /// Those before any field: all defaults.
    pub(crate) fn empty() -> Scalars<'a>
        ensures { seen result ≡ known_of [] }
    {
        Scalars {
            varints: [0; VARINTS],
            blocks: [&[]; BLOCKS],
        }
    }

    /// Takes one more field in. One that no known message has counts for nothing.
    pub(crate) fn take(&mut self, field: WireField<'a>)
        ensures { (fs : List Field) → seen self.old ≡ known_of fs → seen self.new ≡ known_of (fs ++ field_of field.entry ∷ []) }
    {
        match field.payload {
            Payload::Varint(value) if field.number < VARINTS as u64 => {
                self.varints[field.number as usize] = value;
            }
            Payload::Block(block) if field.number < BLOCKS as u64 => {
                self.blocks[field.number as usize] = block;
            }
            // No known message has a field of this number, or of this wire type.
            Payload::Varint(_) | Payload::Block(_) => {}
            Payload::Eight(_) | Payload::Four(_) => {}
        }
    }

    /// Reads the fields from an offset to the end of the bytes, where none was read yet.
    #[inline(always)]
    pub(crate) fn read(&mut self, bytes: &'a [u8], from: usize) -> Result<(), WireFault>
        requires from { from ≤ length bytes.now }
        requires none { seen self.old ≡ known_of [] }
        ensures scalars { OnOk result (seen self.new ≡ known_of (sequence_at from (drop from bytes.now)).fields) }
        ensures whole { OnOk result ((sequence_at from (drop from bytes.now)).fault ≡ None) }
        ensures fault { IfErr result (λ e. (sequence_at from (drop from bytes.now)).fault ≡ Some e) }
    {
        let mut at = from;
        while let Some(field) = next_field(bytes, at)? {
            self.take(field);
            at = field.next;
        }
        Ok(())
    }

    /// The number of 64 bits.
    pub(crate) fn u64_at(&self, number: u32) -> u64
        requires { number < 10 }
        ensures { result ≡ u64_at number (seen self.now) }
    {
        self.varints[number as usize]
    }

    /// The low 32 bits, which are what a number of 32 bits keeps of its varint.
    pub(crate) fn u32_at(&self, number: u32) -> u32
        requires { number < 10 }
        ensures { result ≡ u32_at number (seen self.now) }
    {
        (self.varints[number as usize] % (1 << 32)) as u32
    }

    /// Whether the number is not 0.
    pub(crate) fn bool_at(&self, number: u32) -> bool
        requires { number < 10 }
        ensures { result ≡ bool_at number (seen self.now) }
    {
        self.varints[number as usize] != 0
    }

    /// The bytes.
    pub(crate) fn bytes_at(&self, number: u32) -> &'a [u8]
        requires { number < 7 }
        ensures { result.now ≡ bytes_at number (seen self.now) }
    {
        self.blocks[number as usize]
    }
}

impl Default for Scalars<'_> {
    fn default() -> Self {
        Scalars::empty()
    }
}
