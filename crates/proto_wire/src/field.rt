//! A field of a message, and what can be wrong with one.

/// What a field holds. The slices are those of the bytes that were read.
#[derive(Clone, Copy, Debug)]
pub enum Payload<'a> {
    /// Wire type 0.
    Varint(u64),
    /// Wire type 1: eight bytes.
    Eight(&'a [u8]),
    /// Wire type 2: as many bytes as its length says.
    Block(&'a [u8]),
    /// Wire type 5: four bytes.
    Four(&'a [u8]),
}

/// A field, and where it lies: offsets count from the start of the bytes that were read.
#[derive(Clone, Copy, Debug)]
pub struct WireField<'a> {
    pub number: u64,
    pub payload: Payload<'a>,
    /// The first byte of the tag.
    pub at: usize,
    /// The first byte of the content: behind the length of a block, and else behind the tag.
    pub content_at: usize,
    /// The first byte behind the field.
    pub next: usize,
}

/// Why bytes are no field, with the offset of the first byte of the tag. The first of these that holds,
/// in the order of the bytes: of the tag, of its number, of its wire type, of the payload.
#[derive(Clone, Copy, Debug, PartialEq, Eq)]
pub enum WireFault {
    /// The bytes end inside the field.
    Cut(usize),
    /// A varint has a tenth byte above 1, so it is longer than 64 bits.
    LongVarint(usize),
    /// The field's number is 0.
    FieldZero(usize),
    /// The wire type is that of a group, 3 or 4.
    GroupWire(usize),
    /// The wire type is 6 or 7, which none has.
    BadWire(usize),
}
