//! What holds of the format itself.

ghost use Rattle.std.specs.Prelude.{◌≡◌, ℕ, ◌<◌, ◌≤◌, ◌^◌, ◌++◌, List, length, slice_index, Ok};
ghost use Rattle.proto_wire.specs.Varint.{varint, varint_at};
ghost use Rattle.proto_wire.specs.Fields.{field_at};
ghost use Rattle.proto_wire.specs.Written.{IsNumber, tag, message_field, varint_read, block_read};

/// A number is read again from the varint that it is written as, whatever stands behind it, and no bytes
/// that are read as this number are fewer.
pub fn varints_are_shortest()
    ensures again { (at n : ℕ) (rest : List ℕ) → n < 2 ^ 64 → varint_at at (varint n ++ rest) ≡ Ok (n, length (varint n)) }
    ensures shortest { (at n size : ℕ) (bytes : List ℕ) → ((i : ℕ) → slice_index bytes i < 256) → varint_at at bytes ≡ Ok (n, size) → length (varint n) ≤ size }
{}

/// A field that was written is read again, whatever stands behind it.
pub fn written_fields_are_read()
    ensures numbers { (at number n : ℕ) (rest : List ℕ) → IsNumber number → n < 2 ^ 64 → field_at at ((tag number 0 ++ varint n) ++ rest) ≡ Ok (varint_read at number n) }
    ensures messages { (at number : ℕ) (bytes rest : List ℕ) → IsNumber number → length bytes < 2 ^ 64 → field_at at (message_field number bytes ++ rest) ≡ Ok (block_read at number bytes) }
{}
