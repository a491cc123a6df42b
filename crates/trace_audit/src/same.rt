//! Which entries and replies are the same.
ghost use Rattle.std.specs.Prelude.{◌≡◌};
ghost use Rattle.client_msgs.specs.Canonical.{canonical_response};
ghost use Rattle.client_msgs.specs.Sizes.{FitsResponse};
ghost use Rattle.trace_model.specs.Audit.{same_entry, same_numbers, same_reply, is_ask_of};

use client_msgs::responses_are_read_again;
use values::{Body, ClientId, LogEntry, Reply, Response};

/// Whether the entries are the same.
pub(crate) fn same_entry(a: &LogEntry, b: &LogEntry) -> bool
    ensures { result ≡ same_entry a.now b.now }
{
    a == b
}

/// Whether the replies are the same.
pub(crate) fn same_reply(a: &Reply, b: &Reply) -> bool
    ensures { result ≡ same_reply a.now b.now }
{
    match (a, b) {
        (Reply::Applied(a), Reply::Applied(b)) => same_response(a, b),
        (Reply::Stale(a), Reply::Stale(b)) => a == b,
        (Reply::TableFull(a), Reply::TableFull(b)) => a == b,
        _ => false,
    }
}

/// Whether the responses are the same: then, and only then, their bytes are.
fn same_response(a: &Response, b: &Response) -> bool
    ensures { result ≡ same_numbers (canonical_response a.now) (canonical_response b.now) }
{
    // no two responses are written as the same bytes
    responses_are_read_again();
    fits(a);
    fits(b);
    match (a, b) {
        (Response::Backup { status: a }, Response::Backup { status: b }) => *a == *b,
        (
            Response::Restore {
                status: a,
                secret: kept,
                tries: left,
            },
            Response::Restore {
                status: b,
                secret,
                tries,
            },
        ) => *a == *b && *left == *tries && kept.as_slice() == secret.as_slice(),
        (Response::Delete, Response::Delete) => true,
        (Response::Expose { status: a }, Response::Expose { status: b }) => *a == *b,
        _ => false,
    }
}

/// What the types say of every response. It does nothing.
fn fits(response: &Response)
    ensures { FitsResponse response.now }
{
    match response {
        Response::Backup { status } | Response::Expose { status } => {
            let _status = *status;
        }
        Response::Restore {
            status,
            secret,
            tries,
        } => {
            let _status = *status;
            let _len = secret.as_slice().len();
            let _tries = *tries;
        }
        Response::Delete => {}
    }
}

/// Whether the body is the client's request of this number.
pub(crate) fn is_ask_of(body: &Body, client: &ClientId, number: u64) -> bool
    ensures { result ≡ is_ask_of client.now number body.now }
{
    match body {
        Body::Ask {
            client: asking,
            number: asked,
            ..
        } => asking == client && *asked == number,
        Body::Noop | Body::Members { .. } => false,
    }
}
