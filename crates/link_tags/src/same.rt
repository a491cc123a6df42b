//! Comparing tags.

ghost use Rattle.std.specs.Prelude.{◌≡◌};
ghost use Rattle.std.specs.Str.{bytes_eq};

/// Whether two tags are the same. It looks at each byte, so its time says nothing of where they differ.
pub(crate) fn same_tag(left: &[u8; 32], right: &[u8; 32]) -> bool
    ensures { result ≡ bytes_eq left.now right.now }
{
    let mut difference = 0;
    for i in 0..32 {
        difference |= left[i] ^ right[i];
    }
    difference == 0
}
