//! Writing fields behind bytes.

ghost use Rattle.std.specs.Prelude.{◌≡◌, ◌+◌, ◌-◌, ◌++◌, ◌<◌, ◌≤◌, ◌^◌, [], length, replicate, IfOk};
ghost use Rattle.std.specs.Int.{w8, w32, w64};
ghost use Rattle.fixed_fields.specs.Fields.{number_bytes};
ghost use Rattle.fixed_fields.specs.Formats.{counted, numbers as words};
ghost use Rattle.fixed_fields.specs.Written.{Puts, closed};

use byteorder::{BigEndian, ByteOrder};
use std::alloc::AllocError;
use std::marker::Model;

/// Writes fields behind bytes that stay as they are. After an error some bytes of the field may stand there.
#[derive(Drop)]
pub struct Writer {
    bytes: Vec<u8>,
    start: usize,
}

impl Model for Writer {
    ghost use Rattle.std.specs.Prelude.{◌≤◌, length, take, drop};
    ghost use Rattle.fixed_fields.specs.Written.{Written};

    ghost Value = { Written };

    ghost view = { λ a. record { front = take a.start a.bytes.items; tail = drop a.start a.bytes.items } };

    ghost invariant = { λ a. a.start ≤ length a.bytes.items };
}

impl Writer {
    /// A writer behind these bytes.
    pub fn behind(bytes: Vec<u8>) -> Writer
        ensures front { result.front ≡ bytes.items }
        ensures tail { result.tail ≡ [] }
    {
        let start = bytes.len();
        Writer { bytes, start }
    }

    /// A byte.
    #[tactic(auto, unfolding(crate::specs::Fields::number_bytes))]
    pub fn u8(&mut self, number: u8) -> Result<(), AllocError>
        ensures { Puts result self.old self.new (number_bytes w8 number) }
    {
        self.bytes(&[number])
    }

    /// A number of four bytes.
    #[tactic(auto, unfolding(crate::specs::Fields::number_bytes))]
    pub fn u32(&mut self, number: u32) -> Result<(), AllocError>
        ensures { Puts result self.old self.new (number_bytes w32 number) }
    {
        let mut bytes = [0; 4];
        BigEndian::write_u32(&mut bytes, number);
        self.bytes(&bytes)
    }

    /// A number of eight bytes.
    #[tactic(auto, unfolding(crate::specs::Fields::number_bytes))]
    pub fn u64(&mut self, number: u64) -> Result<(), AllocError>
        ensures { Puts result self.old self.new (number_bytes w64 number) }
    {
        let mut bytes = [0; 8];
        BigEndian::write_u64(&mut bytes, number);
        self.bytes(&bytes)
    }

    /// Bytes as they are.
    pub fn bytes(&mut self, bytes: &[u8]) -> Result<(), AllocError>
        ensures { Puts result self.old self.new bytes.now }
    {
        self.bytes.extend_from_slice(bytes)
    }

    /// Numbers of four bytes each, one behind the other.
    pub fn u32s(&mut self, numbers: &[u32]) -> Result<(), AllocError>
        ensures { Puts result self.old self.new (words.spelled numbers.now) }
    {
        for number in numbers {
            self.u32(*number)?;
        }
        Ok(())
    }

    /// The same behind a byte that counts them.
    pub fn counted(&mut self, numbers: &[u32]) -> Result<(), AllocError>
        requires { length numbers.now < 256 }
        ensures { Puts result self.old self.new (counted.spelled numbers.now) }
    {
        self.u8(numbers.len() as u8)?;
        self.u32s(numbers)
    }

    /// Leaves room for the length of what is written next, in four bytes. [`Writer::close`] fills it in.
    pub fn open(&mut self) -> Result<usize, AllocError>
        ensures place { IfOk result (λ place. place ≡ length self.old.tail) }
        ensures room { Puts result self.old self.new (replicate 4 0) }
    {
        let place = self.bytes.len() - self.start;
        self.bytes(&[0; 4])?;
        Ok(place)
    }

    /// Fills in the length of what was written behind this place.
    #[tactic(auto, unfolding(crate::specs::Fields::number_bytes))]
    pub fn close(&mut self, place: usize)
        requires opened { place + 4 ≤ length self.old.tail }
        requires short { length self.old.tail - (place + 4) < 2 ^ 32 }
        ensures front { self.new.front ≡ self.old.front }
        ensures tail { self.new.tail ≡ closed place self.old.tail }
    {
        let place = self.start + place;
        let length = self.bytes.len() - (place + 4);
        BigEndian::write_u32(&mut self.bytes[place..], length as u32);
    }

    /// All the bytes.
    pub fn finish(self) -> Vec<u8>
        ensures { result.items ≡ self.front ++ self.tail }
    {
        self.bytes
    }

    /// The bytes in front, without what was written.
    pub fn undo(self) -> Vec<u8>
        ensures { result.items ≡ self.front }
    {
        let mut bytes = self.bytes;
        bytes.truncate(self.start);
        bytes
    }
}
