//! The configurations of a log.

use group_quorum::Config;

/// What a log knows of the configurations of its entries up to an index.
#[derive(Clone, Copy, Debug, PartialEq, Eq)]
pub struct Configs {
    /// The newest one.
    pub newest: Config,
    /// The index of its entry, 0 of the first configuration.
    pub newest_index: u64,
    /// The one before it; the newest one where no older one is known. It is known while the newest one's entry is kept.
    pub older: Config,
}
