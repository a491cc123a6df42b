//! Reading as many bytes as there is room for.
ghost use Rattle.std.specs.Prelude.{◌≡◌, ◌≤◌, ◌<◌, ℕ, List, length, take, IfOk, OnErr};
ghost use Rattle.std.specs.Io.KnownBytes.{Consumes, IsAtEnd};
ghost use Rattle.byte_streams.specs.Causes.{HasCause};

use byte_streams::{Failed, Source};

/// Reads until the buffer is full or the source ends, and answers how many bytes came; fewer than there is room for only at the
/// end. After `Failed` some have come too.
pub(crate) fn fill<S: Source>(source: &mut S, buffer: &mut [u8]) -> Result<usize, Failed>
    ensures got { IfOk result (λ count. Consumes (S.left source.old) (S.left source.new) (take count buffer.new)) }
    ensures few { IfOk result (λ count. (count ≤ length buffer.old) × (count < length buffer.old → IsAtEnd (S.left source.new))) }
    ensures lost { OnErr result ((read : List ℕ) × Consumes (S.left source.old) (S.left source.new) read × (length read < length buffer.old)) }
    ensures size { length buffer.new ≡ length buffer.old }
    ensures cause { HasCause (S.faults source.old) (S.faults source.new) result }
{
    let mut count = 0;
    while count < buffer.len() {
        let more = source.read(&mut buffer[count..])?;
        if more == 0 {
            break;
        }
        count += more;
    }
    Ok(count)
}
