ghost use Rattle.std.specs.Prelude.{◌≡◌, []};
ghost use Rattle.group_quorum.specs.Voters.{first_bad, first_double, fault_of};

use crate::{ConfigFault, MAX_ID, MAX_VOTERS};

/// The first fault of a list of voters under a margin, or None where they make a configuration.
pub fn find_fault(voters: &[u32], margin: u8) -> Option<ConfigFault>
    ensures { result ≡ fault_of margin voters.now }
{
    if voters.len() > MAX_VOTERS {
        let count = u32::try_from(voters.len()).unwrap_or(u32::MAX);
        return Some(ConfigFault::TooMany(count));
    }
    if let Some(id) = find_bad(voters) {
        return Some(ConfigFault::BadId(id));
    }
    if let Some(id) = find_double(voters) {
        return Some(ConfigFault::Double(id));
    }
    if voters.len() < 2 * usize::from(margin) + 1 {
        return Some(ConfigFault::TooFew(voters.len() as u32));
    }
    None
}

fn find_bad(voters: &[u32]) -> Option<u32>
    ensures { result ≡ first_bad voters.now }
{
    voters.iter().copied().find(|id| *id == 0 || *id > MAX_ID)
}

fn find_double(voters: &[u32]) -> Option<u32>
    ensures { result ≡ first_double [] voters.now }
{
    for (place, id) in voters.iter().enumerate() {
        if voters[..place].contains(id) {
            return Some(*id);
        }
    }
    None
}
