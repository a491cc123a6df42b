//! A configuration with one voter more or less.
ghost use Rattle.std.specs.Prelude.{◌≡◌, ◌<◌, ◌-◌, ◌∷◌, [], false, true, length};
ghost use Rattle.group_quorum.specs.Voters.{IsId, is_in};
ghost use Rattle.group_quorum.specs.declared.TheConstants.{MAX_VOTERS};
ghost use Rattle.replica_model.specs.Changes.{are_few, with_voter as with_voter_of, without_voter as without_voter_of};
ghost use Rattle.member_rules.specs.declared.fault.MemberFault.TheVariants.{TooFew};
ghost use Rattle.member_rules.specs.Faults.{unless_fault};

use crate::fault::MemberFault;
use group_quorum::Config;
use values::ReplicaId;

/// The configuration with one voter more.
pub fn with_voter(config: &Config, id: ReplicaId) -> Config
    requires id { IsId id }
    requires absent { is_in config.now.voters id ≡ false }
    requires room { length config.now.voters < MAX_VOTERS }
    ensures { result ≡ with_voter_of config.now id }
{
    let _sound = config.voters();
    match config.with(id) {
        Ok(config) => config,
        Err(_) => unreachable!(),
    }
}

/// The configuration with one voter less, unless too few are left.
pub fn without_voter(config: &Config, id: ReplicaId) -> Result<Config, MemberFault>
    requires { is_in config.now.voters id ≡ true }
    ensures { result ≡ unless_fault (
        (are_few (length config.now.voters - 1) config.now.margin, TooFew (length config.now.voters - 1)) ∷ []
        ) (without_voter_of config.now id) }
{
    let count = config.voters().len() as u32 - 1;
    match config.without(id) {
        Ok(config) => Ok(config),
        Err(_) => Err(MemberFault::TooFew(count)),
    }
}
