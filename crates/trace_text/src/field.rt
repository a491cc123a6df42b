//! The fields of a line.
ghost use Rattle.std.specs.Prelude.{◌≡◌};
ghost use Rattle.trace_text.specs.declared.field.Field.TheVariants as field;

/// A field of a line, by what is written of it.
#[derive(Clone, Copy, Debug)]
pub enum Field<'a> {
    /// A word as it stands.
    Word(&'a str),
    /// A number, by its decimal digits.
    Number(u64),
    /// Bytes, as lower-case hexadecimal.
    Hex(&'a [u8]),
}

/// A number of 32 bits as a field.
pub fn small(number: u32) -> Field<'static>
    ensures { result ≡ field.Number number }
{
    Field::Number(u64::from(number))
}
