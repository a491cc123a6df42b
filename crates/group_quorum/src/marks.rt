ghost use Rattle.std.specs.Prelude.{◌≡◌, ℕ, nat_le};
ghost use Rattle.group_quorum.specs.Conf.{met};
ghost use Rattle.group_quorum.specs.Marks.{mark_of, reaches, greatest_met, IsGreatestMet};

use crate::{Config, MAX_VOTERS};

impl Config {
    /// The greatest number that a quorum of the voters has reached by its marks. A voter without a mark has
    /// reached 0; of several marks of one voter the first counts.
    pub fn greatest_met(&self, marks: &[(u32, u64)]) -> u64
        ensures greatest { IsGreatestMet self.now marks.now result }
        ensures reached { (number : ℕ) → met self.now (reaches marks.now number) ≡ nat_le number result }
        ensures value { result ≡ greatest_met self.now marks.now }
    {
        let voters = self.voters();
        let mut reached = [0; MAX_VOTERS];
        for (place, voter) in voters.iter().enumerate() {
            reached[place] = mark_of(marks, *voter);
        }
        let reached = &mut reached[..voters.len()];
        reached.sort_unstable();
        reached[voters.len() - self.quorum() as usize]
    }
}

fn mark_of(marks: &[(u32, u64)], voter: u32) -> u64
    ensures { result ≡ mark_of marks.now voter }
{
    for (id, mark) in marks {
        if *id == voter {
            return *mark;
        }
    }
    0
}
