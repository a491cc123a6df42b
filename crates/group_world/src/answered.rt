//! An answer as it is kept for the client that may hear it.

use values::{Answer, ClientId};

/// An answer to a client's number.
#[derive(Drop)]
pub(crate) struct Answered {
    pub client: ClientId,
    pub number: u64,
    pub answer: Answer,
}
