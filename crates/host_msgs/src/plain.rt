//! The items of a fixed size.

ghost use Rattle.std.specs.Prelude.{◌≡◌};
ghost use Rattle.host_msgs.specs.Items.{lead_in, halt_in, taken_in, saved_in};

use crate::item::Item;
use fixed_fields::{array_at, end, u32_at, u64_at};
use values::{Hash, Point, TOP};

pub fn lead(content: &[u8]) -> Option<Item>
    ensures { result ≡ lead_in content.now }
{
    let (term, rest) = u64_at(content)?;
    end(rest)?;
    if term > TOP {
        return None;
    }
    Some(Item::Lead(term))
}

pub fn halt(content: &[u8]) -> Option<Item>
    ensures { result ≡ halt_in content.now }
{
    let (index, rest) = u64_at(content)?;
    let (kept, rest) = array_at::<32>(rest)?;
    let (offered, rest) = array_at::<32>(rest)?;
    end(rest)?;
    if index > TOP {
        return None;
    }
    Some(Item::Halt(index, Hash(kept), Hash(offered)))
}

pub fn taken(content: &[u8]) -> Option<Item>
    ensures { result ≡ taken_in content.now }
{
    let (index, rest) = u64_at(content)?;
    let (hash, rest) = array_at::<32>(rest)?;
    end(rest)?;
    if index > TOP {
        return None;
    }
    let hash = Hash(hash);
    Some(Item::Taken(Point { index, hash }))
}

pub fn saved(content: &[u8]) -> Option<Item>
    ensures { result ≡ saved_in content.now }
{
    let (k, rest) = u32_at(content)?;
    end(rest)?;
    Some(Item::Saved(k))
}
