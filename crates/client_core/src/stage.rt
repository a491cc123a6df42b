//! What a client waits for.
ghost use Rattle.std.specs.Prelude.{◌≡◌, IfOk, option_map};
ghost use Rattle.client_msgs.specs.Canonical.{canonical_request};
ghost use Rattle.schedule_model.specs.Client.{first_request, numbers_needed, flight_request};
ghost use Rattle.client_core.specs.Stages.{flight_at, after_backup, IsSound};

use client_msgs::write_request;
use std::alloc::Global;
use values::{Bytes, Hash, Memory, Request, TryCopy, Want};

/// What a client waits for: the answer to the request in flight, which has its last number.
#[derive(Debug, Drop)]
pub(crate) enum Stage {
    /// Nothing is in flight.
    Idle,
    /// The answer to the first request of a want, or to its only one.
    First(Request),
    /// The answer to the expose of a store, whose backup is done.
    Expose {
        secret: Bytes,
        pin: Hash,
        tries: u32,
    },
}

impl Stage {
    /// The number and the bytes of the request in flight, which has this number; `None` where nothing is in flight.
    pub(crate) fn request(&self, alloc: Global, number: u64) -> Result<Option<(u64, Bytes)>, Memory>
        requires { IsSound number self.now }
        ensures { IfOk result (λ said. said ≡
            option_map (λ f. (f.number, canonical_request (flight_request f))) (flight_at number self.now)) }
    {
        let request = match self {
            Stage::Idle => return Ok(None),
            Stage::First(request) => write_request(alloc, request)?,
            Stage::Expose { secret, .. } => {
                let secret = secret.copy(alloc)?;
                write_request(alloc, &Request::Expose { secret })?
            }
        };
        Ok(Some((number, request)))
    }

    /// What is waited for once a backup is done: its expose.
    pub(crate) fn after_backup(self) -> Stage
        ensures { result ≡ after_backup self }
    {
        match self {
            Stage::First(Request::Backup { secret, pin, tries }) => {
                Stage::Expose { secret, pin, tries }
            }
            other => other,
        }
    }
}

/// The first request of a want.
pub(crate) fn first_request(want: Want) -> Request
    ensures { result ≡ first_request want }
{
    match want {
        Want::Store { secret, pin, tries } => Request::Backup { secret, pin, tries },
        Want::Recover { pin } => Request::Restore { pin },
        Want::Erase => Request::Delete,
    }
}

/// How many numbers a want needs, one for each of its requests.
pub(crate) fn numbers_needed(want: &Want) -> u64
    ensures { result ≡ numbers_needed want.now }
{
    match want {
        Want::Store { .. } => 2,
        Want::Recover { .. } | Want::Erase => 1,
    }
}
