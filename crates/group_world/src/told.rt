//! A configuration as it was told.

use values::Ids;

/// A configuration that the begin event or a batch told.
#[derive(Drop)]
pub(crate) struct Told {
    pub margin: u8,
    pub voters: Ids,
}
