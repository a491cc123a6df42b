//! What stands behind a content's kind, field by field.

ghost use Rattle.fixed_fields.specs.Fields.{Gives};
ghost use Rattle.host_inputs.specs.Inputs.{begin_fields, learn_fields, client_fields, number_field, margin_field};

use fixed_fields::{ShortList, array_at, counted_u32s, end, u8_at, u32_at, u64_at};
use values::ClientId;

/// Id, margin, limit and voters.
pub fn begin_fields(bytes: &[u8]) -> Option<(u32, u8, u32, ShortList)>
    ensures { Gives (λ p. (p.0, (p.1, (p.2, p.3)))) result (begin_fields.read bytes.now) }
{
    let (id, rest) = u32_at(bytes)?;
    let (margin, rest) = u8_at(rest)?;
    let (limit, rest) = u32_at(rest)?;
    let voters = counted_u32s(rest)?;
    Some((id, margin, limit, voters))
}

/// Id and linked ids.
pub fn learn_fields(bytes: &[u8]) -> Option<(u32, ShortList)>
    ensures { Gives (λ p. (p.0, p.1)) result (learn_fields.read bytes.now) }
{
    let (id, rest) = u32_at(bytes)?;
    let linked = counted_u32s(rest)?;
    Some((id, linked))
}

/// Client, number and request.
pub fn client_fields(bytes: &[u8]) -> Option<(ClientId, u64, &[u8])>
    ensures { Gives (λ p. (p.0.0, (p.1, p.2.now))) result (client_fields.read bytes.now) }
{
    let (client, rest) = array_at::<16>(bytes)?;
    let (number, request) = u64_at(rest)?;
    Some((ClientId(client), number, request))
}

/// A number of four bytes.
pub fn number_field(bytes: &[u8]) -> Option<u32>
    ensures { Gives (λ n. n) result (number_field.read bytes.now) }
{
    let (number, rest) = u32_at(bytes)?;
    end(rest)?;
    Some(number)
}

/// A margin.
pub fn margin_field(bytes: &[u8]) -> Option<u8>
    ensures { Gives (λ n. n) result (margin_field.read bytes.now) }
{
    let (margin, rest) = u8_at(bytes)?;
    end(rest)?;
    Some(margin)
}
