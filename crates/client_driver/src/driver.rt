//! A driver and its turns.
ghost use Rattle.std.specs.Prelude.{◌≡◌, None, Some, find, nat_lt, MatchOption, IfNone};
ghost use Rattle.trace_model.specs.Driver as rules;
ghost use Rattle.client_driver.specs.Turns.{turn_of, seen_of};

use std::marker::Model;
use values::ReplicaId;

/// How many turns a want has.
pub const MAX_TURNS: u32 = 16;

/// Which replica is asked next, whether it is woken before, and how many turns are left for the want.
#[derive(Debug, Drop)]
pub struct Driver {
    target: ReplicaId,
    wakes: bool,
    left: u32,
}

/// One turn: the client hands its request to the target.
#[derive(Clone, Copy, Debug, PartialEq, Eq)]
pub struct Turn {
    pub target: ReplicaId,
    /// Whether the target's timer is to run out before.
    pub wake: bool,
}

/// What a turn came to.
#[derive(Clone, Copy, Debug, PartialEq, Eq)]
pub enum Seen {
    /// No answer came.
    Silence,
    /// An outcome that did not end the want.
    Progress,
    /// The want ended.
    Report,
    /// Another replica leads.
    Led(ReplicaId),
    /// Any other answer.
    Other,
}

impl Model for Driver {
    ghost use Rattle.trace_model.specs.Driver as rules;

    ghost Value = { rules.Driver };

    ghost view = { λ d. record { target = d.target; wakes = d.wakes; left = d.left } };
}

impl Driver {
    /// A driver that has not asked anyone yet, and has no want: it will wake and ask this replica.
    pub fn new(first: ReplicaId) -> Driver
        ensures { result ≡ rules.new_driver first }
    {
        Driver {
            target: first,
            wakes: true,
            left: 0,
        }
    }

    /// A want begins, with [`MAX_TURNS`] turns. Whom it asks and wakes is as the last want left it.
    pub fn begin_want(&mut self)
        ensures { self.new ≡ rules.begin_want self.old }
    {
        self.left = MAX_TURNS;
    }

    /// Takes the next turn; `None` exactly where none is left.
    pub fn next_turn(&mut self) -> Option<Turn>
        ensures taken { MatchOption result
            (rules.next_turn self.old ≡ None)
            (λ turn. rules.next_turn self.old ≡ Some (turn_of turn, self.new)) }
        ensures none { IfNone result (self.new ≡ self.old) }
    {
        if self.left == 0 {
            return None;
        }
        self.left -= 1;
        Some(Turn {
            target: self.target,
            wake: self.wakes,
        })
    }

    /// Takes in what came of the turn, where these replicas run, in rising order.
    ///
    /// A report leaves no turn. After progress the same replica is asked again, and a leader that runs is asked
    /// next; neither is woken. Else the next running replica is woken and asked: the least one above the target, or the
    /// least of all, or the target again where nobody runs.
    pub fn seen(&mut self, seen: Seen, running: &[ReplicaId])
        ensures { self.new ≡ rules.seen self.old (seen_of seen) running.now }
    {
        match seen {
            Seen::Report => {
                self.left = 0;
                self.wakes = false;
            }
            Seen::Progress => self.wakes = false,
            Seen::Led(leader) if running.contains(&leader) => {
                self.target = leader;
                self.wakes = false;
            }
            Seen::Led(_) | Seen::Silence | Seen::Other => {
                self.target = next_target(self.target, running);
                self.wakes = true;
            }
        }
    }
}

/// The first running id above the target, or the first of all, or the target where nobody runs.
fn next_target(target: ReplicaId, running: &[ReplicaId]) -> ReplicaId
    ensures { result ≡ rules.next_target target running.now }
{
    let least = running.first().copied().unwrap_or(target);
    first_above(target, running).unwrap_or(least)
}

fn first_above(target: ReplicaId, running: &[ReplicaId]) -> Option<ReplicaId>
    ensures { result ≡ find (nat_lt target) running.now }
{
    running.iter().copied().find(|id| target < *id)
}
