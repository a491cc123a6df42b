//! A link in memory.

ghost use Rattle.std.specs.Prelude.{◌≡◌, ◌<◌, ◌≤◌, ◌^◌, All, IfOk, length, map};
ghost use Rattle.link_tags.specs.Hmac.{hmac_of};
ghost use Rattle.link_tags.specs.Ends.{new_end};
ghost use Rattle.link_tags.specs.Passing.{tags_in, frames_sealed, passed_of};

use crate::ends::{Side, TagEnd};
use std::alloc::Global;
use values::{Bytes, Hash, MAX_CONTENT, Memory};

/// Seals the contents in their order at the host's end, and hands the sealed frames of the listed numbers, from 0, to the
/// enclave's end. It answers how many passed there.
pub fn relay(alloc: Global, key: [u8; 32], contents: &[Bytes], order: &[u32]) -> Result<u32, Memory>
    requires few { length order.now < 2 ^ 32 }
    requires listed { All (λ number. number < length contents.now) order.now }
    requires short { All (λ content. length content ≤ MAX_CONTENT) contents.now }
    ensures { IfOk result (λ passed. passed ≡ passed_of hmac_of key contents.now order.now) }
{
    let tags = tags_of(alloc, key, contents)?;
    let mut enclave = TagEnd::new(key, Side::Enclave);
    let mut passed = 0;
    for number in order {
        let place = *number as usize;
        if enclave
            .check(contents[place].as_slice(), &tags[place])
            .is_ok()
        {
            passed += 1;
        }
    }
    Ok(passed)
}

/// The tags of the contents' frames, which the host's end seals where the contents lie.
fn tags_of(alloc: Global, key: [u8; 32], contents: &[Bytes]) -> Result<Vec<Hash>, Memory>
    ensures { IfOk result (λ tags. map (λ tag. tag.0) tags.items ≡ tags_in (frames_sealed hmac_of (new_end key Side.Host) contents.now)) }
{
    let mut host = TagEnd::new(key, Side::Host);
    let mut tags = Vec::with_capacity(alloc, contents.len())?;
    for content in contents {
        tags.push(host.next_tag(content.as_slice()))?;
    }
    Ok(tags)
}
