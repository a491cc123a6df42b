//! The items that a replica's configurations leave.

ghost use Rattle.std.specs.Prelude.{◌≡◌};
ghost use Rattle.fixed_fields.specs.Fields.{Gives};
ghost use Rattle.host_msgs.specs.Items.{members_in, members_head, only_if, is_conf};
ghost use Rattle.host_msgs.specs.Reading.{Finds};

use crate::item::Item;
use fixed_fields::{short_u32s, u8_at, u64_at};
use group_quorum::Config;
use std::alloc::Global;
use values::{Ids, Memory, TOP};

pub fn members(alloc: Global, content: &[u8]) -> Result<Option<Item>, Memory>
    ensures { Finds result (members_in content.now) }
{
    let Some((index, margin, ids)) = fields(content) else {
        return Ok(None);
    };
    let Some(ids) = short_u32s(ids) else {
        return Ok(None);
    };
    if index > TOP {
        return Ok(None);
    }
    match voters(alloc, margin, ids.as_slice())? {
        Some(voters) => Ok(Some(Item::Members(index, margin, voters))),
        None => Ok(None),
    }
}

/// Index, margin and the bytes of the ids.
fn fields(content: &[u8]) -> Option<(u64, u8, &[u8])>
    ensures { Gives (λ p. (p.0, (p.1, p.2.now))) result (members_head.read content.now) }
{
    let (index, rest) = u64_at(content)?;
    let (margin, rest) = u8_at(rest)?;
    Some((index, margin, rest))
}

/// These voters, if with this margin they are those of a configuration, in rising order.
pub fn voters(alloc: Global, margin: u8, ids: &[u32]) -> Result<Option<Ids>, Memory>
    ensures { Finds result (only_if (is_conf margin ids.now) ids.now) }
{
    match Config::new(ids, margin) {
        Ok(config) if config.voters() == ids => Ids::from_slice(alloc, ids),
        _ => Ok(None),
    }
}
