ghost use Rattle.std.specs.Prelude.{◌≡◌, ◌==◌, ◌≤◌, ◌-◌, ◌++◌, ◌∷◌, [], not, filter, length, count_by, replicate, IfOk};
ghost use Rattle.std.specs.List.Sorted.{IsStrictlyIncreasing};
ghost use Rattle.group_quorum.specs.Conf.{quorum_of, met};
ghost use Rattle.group_quorum.specs.Voters.{is_in, rising, conf_of, IsSound};

use crate::voters::find_fault;
use crate::{ConfigFault, MAX_VOTERS};
use std::marker::Model;

/// The voters of a group in rising order, and its margin.
#[derive(Clone, Copy, Debug, PartialEq, Eq)]
pub struct Config {
    margin: u8,
    count: usize,
    // Zero from `count` on, so that equal configurations are equal in every field.
    ids: [u32; MAX_VOTERS],
}

impl Model for Config {
    ghost use Rattle.group_quorum.specs.Conf.{Conf};

    ghost Value = { Conf };

    ghost use Rattle.group_quorum.specs.Stored.{conf_in, stored, IsStored, stored_back};

    ghost view = { conf_in };

    ghost invariant = { IsStored };

    ghost inverse = { stored };

    ghost inverse_ok = { stored_back };
}

impl Config {
    /// The configuration of these voters, in any order, or the first of their faults.
    pub fn new(voters: &[u32], margin: u8) -> Result<Config, ConfigFault>
        ensures made { result ≡ conf_of margin voters.now }
        ensures in_order { IsStrictlyIncreasing voters.now → IfOk result (λ c. c.voters ≡ voters.now) }
    {
        if let Some(fault) = find_fault(voters, margin) {
            return Err(fault);
        }
        Ok(Config {
            margin,
            count: voters.len(),
            ids: sorted(voters),
        })
    }

    /// How many voters make a quorum: more than half of them, and the margin more.
    pub fn quorum(&self) -> u32
        ensures quorum { result ≡ quorum_of self.now }
        ensures reachable { result ≤ length self.now.voters }
    {
        (self.count / 2 + 1) as u32 + u32::from(self.margin)
    }

    /// Whether this id is a voter.
    pub fn holds(&self, id: u32) -> bool
        ensures { result ≡ is_in self.now.voters id }
    {
        self.voters().contains(&id)
    }

    /// The voters in rising order.
    pub fn voters(&self) -> &[u32]
        ensures voters { result.now ≡ self.now.voters }
        ensures sound { IsSound self.now }
        ensures made { conf_of self.now.margin self.now.voters ≡ Ok self.now }
    {
        &self.ids[..self.count]
    }

    /// How many voters may be set back without harm is twice this.
    pub fn margin(&self) -> u8
        ensures { result ≡ self.now.margin }
    {
        self.margin
    }

    /// Whether a quorum of the voters stands in `who`. An id that stands there twice counts once.
    pub fn met(&self, who: &[u32]) -> bool
        ensures { result ≡ met self.now (is_in who.now) }
    {
        count_in(self.voters(), who) >= self.quorum() as usize
    }

    /// This configuration with one voter more.
    pub fn with(&self, id: u32) -> Result<Config, ConfigFault>
        ensures { result ≡ conf_of self.now.margin (self.now.voters ++ id ∷ []) }
    {
        let mut ids = [0; MAX_VOTERS + 1];
        ids[..self.count].copy_from_slice(self.voters());
        ids[self.count] = id;
        Config::new(&ids[..=self.count], self.margin)
    }

    /// This configuration without that voter; the same one where it is no voter.
    pub fn without(&self, id: u32) -> Result<Config, ConfigFault>
        ensures { result ≡ conf_of self.now.margin (filter (λ v. not (v == id)) self.now.voters) }
    {
        let mut ids = [0; MAX_VOTERS];
        let mut count = 0;
        for voter in self.voters() {
            if *voter != id {
                ids[count] = *voter;
                count += 1;
            }
        }
        Config::new(&ids[..count], self.margin)
    }

    /// The same voters under another margin.
    pub fn with_margin(&self, margin: u8) -> Result<Config, ConfigFault>
        ensures { result ≡ conf_of margin self.now.voters }
    {
        Config::new(self.voters(), margin)
    }
}

/// The ids in rising order, and zeros behind them.
fn sorted(ids: &[u32]) -> [u32; MAX_VOTERS]
    requires { length ids.now ≤ MAX_VOTERS }
    ensures { result ≡ rising ids.now ++ replicate (MAX_VOTERS - length ids.now) 0 }
{
    let mut array = [0; MAX_VOTERS];
    let front = &mut array[..ids.len()];
    front.copy_from_slice(ids);
    front.sort_unstable();
    array
}

fn count_in(voters: &[u32], who: &[u32]) -> usize
    ensures { result ≡ count_by (is_in who.now) voters.now }
{
    voters.iter().filter(|voter| who.contains(voter)).count()
}
