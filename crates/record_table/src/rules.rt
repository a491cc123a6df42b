//! The record rules: how a request that acts changes its client's record, and what is answered.
ghost use Rattle.std.specs.Prelude.{◌≡◌, [], Option, Some, IfOk, option_copied};
ghost use Rattle.values.specs.declared.row.Kept.{Kept as KeptRecord};
ghost use Rattle.record_table.specs.Changes.{IsOutcome};

use crate::change::Change;
use record_rules::status::{ERROR, MISSING, OK, PIN_MISMATCH};
use std::alloc::Global;
use values::{Bytes, Hash, Kept, Memory, Request, Response, TryCopy};

/// What a request makes of a record that may be there, and its response. A backup's secret moves into the change.
pub fn outcome(
    alloc: Global,
    request: Request,
    kept: Option<&Kept>,
) -> Result<(Change, Response), Memory>
    ensures { IfOk result (IsOutcome request (option_copied kept.entry)) }
{
    match request {
        Request::Backup { secret, pin, tries } => Ok(back_up(secret, pin, tries)),
        Request::Restore { pin } => match kept {
            Some(kept) => restore(alloc, &pin, kept),
            None => Ok((Change::Stay, missing(alloc))),
        },
        Request::Delete => Ok((Change::Forget, Response::Delete)),
        Request::Expose { secret } => Ok(expose(&secret, kept)),
    }
}

/// A backup takes the place of the record: unexposed, with all its tries.
fn back_up(secret: Bytes, pin: Hash, tries: u32) -> (Change, Response)
    ensures { (kept : Option KeptRecord) → IsOutcome (Request.Backup secret pin tries) kept result }
{
    let kept = Kept {
        secret,
        pin,
        left: tries,
        exposed: false,
    };
    (Change::Keep(kept), Response::Backup { status: OK })
}

/// A restore gives the secret of an exposed record to who knows its PIN; another PIN takes one try.
fn restore(alloc: Global, pin: &Hash, kept: &Kept) -> Result<(Change, Response), Memory>
    ensures { IfOk result (IsOutcome (Request.Restore pin.now) (Some kept.now)) }
{
    if !kept.exposed {
        return Ok((Change::Stay, missing(alloc)));
    }
    if kept.pin.0 == pin.0 {
        let secret = kept.secret.copy(alloc)?;
        let given = Response::Restore {
            status: OK,
            secret,
            tries: kept.left,
        };
        return Ok((Change::Stay, given));
    }
    let left = kept.left.saturating_sub(1);
    let change = if left == 0 {
        Change::Forget
    } else {
        Change::Leave(left)
    };
    Ok((change, refused(alloc, PIN_MISMATCH, left)))
}

/// An expose with the record's own secret lets it be restored; any other changes nothing.
fn expose(secret: &Bytes, kept: Option<&Kept>) -> (Change, Response)
    ensures { IsOutcome (Request.Expose secret.now) (option_copied kept.entry) result }
{
    match kept {
        Some(kept) if kept.secret.as_slice() == secret.as_slice() => {
            (Change::Expose, Response::Expose { status: OK })
        }
        _ => (Change::Stay, Response::Expose { status: ERROR }),
    }
}

/// A restore of no record, or of one that is not exposed.
fn missing(alloc: Global) -> Response
    ensures { result ≡ Response.Restore MISSING [] 0 }
{
    refused(alloc, MISSING, 0)
}

/// A restore that gives no secret.
fn refused(alloc: Global, status: u32, tries: u32) -> Response
    ensures { result ≡ Response.Restore status [] tries }
{
    Response::Restore {
        status,
        secret: Bytes::from(Vec::new(alloc)),
        tries,
    }
}

/// An equal request.
pub fn copied_request(alloc: Global, request: &Request) -> Result<Request, Memory>
    ensures { IfOk result (λ copy. copy ≡ request.now) }
{
    Ok(match request {
        Request::Backup { secret, pin, tries } => Request::Backup {
            secret: secret.copy(alloc)?,
            pin: *pin,
            tries: *tries,
        },
        Request::Restore { pin } => Request::Restore { pin: *pin },
        Request::Delete => Request::Delete,
        Request::Expose { secret } => Request::Expose {
            secret: secret.copy(alloc)?,
        },
    })
}
