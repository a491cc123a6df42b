//! Entries with what links them into the chain.
ghost use Rattle.std.specs.Prelude.{◌≡◌, ◌≤◌, ◌+◌, ◌*◌, ◌++◌, ◌∷◌, IfOk, length, take};
ghost use Rattle.std.specs.List.{AllByRecursion, flat_map};
ghost use Rattle.byteorder.specs.Endian.{big_bytes};
ghost use Rattle.replica_model.specs.Linked.{sha_link};
ghost use Rattle.replica_model.specs.Configs.{is_members, changed_by};
ghost use Rattle.replica_log.specs.Window.{Fits};
ghost use Rattle.replica_log.specs.Chain.{chained, chained_from};

use byteorder::{BigEndian, ByteOrder};
use group_quorum::{Config, MAX_VOTERS};
use hash_chain::link_parts;
use std::alloc::Global;
use std::collections::VecDeque;
use values::{Body, ClientId, Hash, LogEntry, Memory, TryCopy};

/// An entry of a log.
#[derive(Debug, Drop)]
pub struct Chained {
    pub entry: LogEntry,
    /// The hash of the path up to this entry.
    pub hash: Hash,
    /// The index of the newest configuration up to this entry.
    pub conf_index: u64,
}

impl Chained {
    /// The entry at an index, after a path with this hash and this index of its newest configuration.
    pub fn new(before: &Hash, index: u64, conf_index: u64, entry: LogEntry) -> Chained
        requires { Fits entry }
        ensures { result ≡ chained sha_link before.now index conf_index entry }
    {
        let hash = link(before, index, &entry);
        let conf_index = if changes_members(&entry) {
            index
        } else {
            conf_index
        };
        Chained {
            entry,
            hash,
            conf_index,
        }
    }

    /// A copy of it.
    pub fn copy(&self, alloc: Global) -> Result<Chained, Memory>
        ensures { IfOk result (λ value. value ≡ self.now) }
    {
        Ok(Chained {
            entry: self.entry.copy(alloc)?,
            hash: self.hash,
            conf_index: self.conf_index,
        })
    }
}

/// Copies of entries that follow so many others, which have this hash and this index of their newest configuration.
pub fn chain_after(
    alloc: Global,
    before: &Hash,
    count: u64,
    conf_index: u64,
    entries: &[LogEntry],
) -> Result<VecDeque<Chained>, Memory>
    requires fit { AllByRecursion Fits entries.now }
    requires range { count + length entries.now ≤ u64.MAX }
    ensures { IfOk result (λ kept. kept.items ≡ chained_from sha_link before.now count conf_index entries.now) }
{
    let mut kept = VecDeque::with_capacity(alloc, entries.len())?;
    let mut hash = *before;
    let mut index = count;
    let mut conf_index = conf_index;
    for entry in entries {
        index += 1;
        let next = Chained::new(&hash, index, conf_index, entry.copy(alloc)?);
        hash = next.hash;
        conf_index = next.conf_index;
        kept.push_back(next)?;
    }
    Ok(kept)
}

/// The hash after an entry. It takes one digest and no memory.
pub fn link(before: &Hash, index: u64, entry: &LogEntry) -> Hash
    requires { Fits entry.now }
    ensures { result ≡ sha_link before.now index entry.now }
{
    let term = entry.term;
    match &entry.body {
        Body::Noop => Hash(link_parts(&before.0, index, term, 0, &[], &[])),
        Body::Ask {
            client,
            number,
            request,
        } => {
            let start = ask_start(client, *number);
            Hash(link_parts(&before.0, index, term, 1, &start, request.as_slice()))
        }
        Body::Members { margin, voters } => {
            let voters = voters.as_slice();
            let start = members_start(*margin, voters);
            let len = 2 + 4 * voters.len();
            Hash(link_parts(&before.0, index, term, 2, &start[..len], &[]))
        }
    }
}

/// The configuration after an entry.
pub fn config_after(before: &Config, entry: &LogEntry) -> Config
    requires { Fits entry.now }
    ensures { result ≡ changed_by before.now entry.now.body }
{
    match &entry.body {
        Body::Members { margin, voters } => Config::new(voters.as_slice(), *margin).unwrap(),
        _ => *before,
    }
}

/// Whether the entry is a configuration.
fn changes_members(entry: &LogEntry) -> bool
    ensures { result ≡ is_members entry.now.body }
{
    matches!(&entry.body, Body::Members { .. })
}

/// The bytes of an ask before its request.
fn ask_start(client: &ClientId, number: u64) -> [u8; 24]
    ensures { result ≡ client.now.0 ++ big_bytes 8 number }
{
    let mut bytes = [0; 24];
    bytes[..16].copy_from_slice(&client.0);
    BigEndian::write_u64(&mut bytes[16..], number);
    bytes
}

/// The bytes of a configuration, and zeros behind them.
fn members_start(margin: u8, voters: &[u32]) -> [u8; 2 + 4 * MAX_VOTERS]
    requires { length voters.now ≤ MAX_VOTERS }
    ensures { take (2 + 4 * length voters.now) result ≡ margin ∷ length voters.now ∷ flat_map (big_bytes 4) voters.now }
{
    let mut bytes = [0; 2 + 4 * MAX_VOTERS];
    bytes[0] = margin;
    bytes[1] = voters.len() as u8;
    let end = 2 + 4 * voters.len();
    BigEndian::write_u32_into(voters, &mut bytes[2..end]);
    bytes
}
