//! Points of a log, and the ids of a configuration.
ghost use Rattle.std.specs.Prelude.{◌≡◌, Ok, IfOk};
ghost use Rattle.group_quorum.specs.Voters.{conf_of};
ghost use Rattle.replica_model.specs.Path.{same_point};

use group_quorum::Config;
use std::alloc::Global;
use values::{Ids, Memory, Point};

/// Whether the points are the same.
pub fn same_point(a: &Point, b: &Point) -> bool
    ensures { result ≡ same_point a.now b.now }
{
    a.index == b.index && a.hash.0 == b.hash.0
}

/// The ids of a configuration's voters, in rising order. With its margin they make that configuration again.
pub fn voters_of(alloc: Global, config: &Config) -> Result<Ids, Memory>
    ensures voters { IfOk result (λ ids. ids ≡ config.now.voters) }
    ensures made { conf_of config.now.margin config.now.voters ≡ Ok config.now }
{
    let Some(ids) = Ids::from_slice(alloc, config.voters())? else {
        unreachable!()
    };
    Ok(ids)
}
