//! What came of a request, as the fields of a line.
ghost use Rattle.std.specs.Prelude.{◌≡◌, ◌++◌, ◌∷◌, ◌≤◌, ◌<◌, [], length, take, IfSome, OnOk, OnErr};
ghost use Rattle.client_msgs.specs.Canonical.{canonical_response};
ghost use Rattle.schedule_model.specs.Lines as spec;
ghost use Rattle.schedule_text.specs.Joined.{after_comma, after_commas};

use crate::line::{push_hex, push_number};
use client_msgs::write_response;
use values::{Memory, Reply, Response};

/// A member of this tag with a status of one byte.
fn status_member(tag: u8, status: u32) -> Option<[u8; 4]>
    ensures { IfSome result (λ bytes. (1 ≤ status) × (status < 128) × (bytes ≡ tag ∷ 2 ∷ 8 ∷ status ∷ [])) }
{
    if 1 <= status && status < 128 {
        Some([tag, 2, 8, status as u8])
    } else {
        None
    }
}

/// The canonical bytes of a response that has a status of one byte and nothing else, as most have: no writer
/// need be made for them.
fn status_response(response: &Response) -> Option<[u8; 4]>
    ensures { IfSome result (λ bytes. bytes ≡ canonical_response response.now) }
{
    match response {
        Response::Backup { status } => status_member(10, *status),
        Response::Restore {
            status,
            secret,
            tries,
        } => {
            if secret.is_empty() && *tries == 0 {
                status_member(18, *status)
            } else {
                None
            }
        }
        Response::Expose { status } => status_member(34, *status),
        _ => None,
    }
}

/// Appends a comma and the canonical bytes of a response as hexadecimal. After want of memory the line is as before.
fn push_response(line: &mut Vec<u8>, response: &Response) -> Result<(), Memory>
    ensures ok { OnOk result (line.new.items ≡ line.old.items ++ after_comma (spec.hex (canonical_response response.now))) }
    ensures err { OnErr result (line.new.items ≡ line.old.items) }
{
    if let Response::Delete = response {
        push_hex(line, &[26, 0])?;
        return Ok(());
    }
    if let Some(bytes) = status_response(response) {
        push_hex(line, &bytes)?;
        return Ok(());
    }
    let bytes = write_response(*line.allocator(), response)?;
    push_hex(line, bytes.as_slice())?;
    Ok(())
}

/// Appends the fields of a reply, each behind a comma. After want of memory the line is as before.
pub fn push_reply(line: &mut Vec<u8>, reply: &Reply) -> Result<(), Memory>
    ensures ok { OnOk result (line.new.items ≡ line.old.items ++ after_commas (spec.reply_fields reply.now)) }
    ensures err { OnErr result (line.new.items ≡ line.old.items) }
{
    let size = line.len();
    let pushed = push_fields(line, reply);
    if pushed.is_err() {
        line.truncate(size);
    }
    pushed
}

/// Appends the fields of a reply. Want of memory may leave the first of them behind the line.
fn push_fields(line: &mut Vec<u8>, reply: &Reply) -> Result<(), Memory>
    ensures ok { OnOk result (line.new.items ≡ line.old.items ++ after_commas (spec.reply_fields reply.now)) }
    ensures err { OnErr result (take (length line.old.items) line.new.items ≡ line.old.items) }
{
    match reply {
        Reply::Applied(response) => {
            line.extend_from_slice(b",done")?;
            push_response(line, response)?;
        }
        Reply::Stale(last) => {
            line.extend_from_slice(b",stale,")?;
            push_number(line, *last)?;
        }
        Reply::TableFull(rows) => {
            line.extend_from_slice(b",full,")?;
            push_number(line, u64::from(*rows))?;
        }
    }
    Ok(())
}
