//! What a leader owes its clients.
ghost use Rattle.std.specs.Prelude.{◌≡◌, Some, ◌++◌, ◌∷◌, [], OnOk, IfOk};
ghost use Rattle.replica_core.specs.Applying.{due_at, rest_of};
ghost use Rattle.replica_core.specs.Replacing.{tickets_left, given_up};

use std::alloc::Global;
use std::collections::VecDeque;
use std::marker::Model;
use values::{Answer, AnswerList, ClientId, Hash, Memory};

/// A client's request that a leader has pushed, and its place in the log.
#[derive(Clone, Copy, Debug, PartialEq, Eq)]
pub(crate) struct Ticket {
    pub index: u64,
    pub client: ClientId,
    pub number: u64,
}

/// The tickets of a replica, in rising index. Contracts see the list of them.
#[derive(Debug, Drop)]
pub(crate) struct Tickets {
    tickets: VecDeque<Ticket>,
}

impl Model for Tickets {
    ghost use Rattle.std.specs.Prelude.{List};
    ghost use Rattle.replica_core.specs.declared.tickets.Ticket.{Ticket};

    ghost Value = { List Ticket };

    ghost view = { λ t. t.tickets.items };
}

impl Tickets {
    /// An empty queue.
    pub fn new(alloc: Global) -> Tickets
        ensures { result ≡ [] }
    {
        Tickets {
            tickets: VecDeque::new(alloc),
        }
    }

    /// Keeps one more, behind all others.
    pub fn push(&mut self, ticket: Ticket) -> Result<(), Memory>
        ensures { OnOk result (self.new ≡ self.old ++ ticket ∷ []) }
    {
        self.tickets.push_back(ticket)?;
        Ok(())
    }

    /// Takes the first one, where it is that of an index.
    pub fn take_due(&mut self, index: u64) -> Option<Ticket>
        ensures due { result ≡ due_at self.old index }
        ensures rest { self.new ≡ rest_of self.old index }
    {
        match self.tickets.front() {
            Some(first) if first.index == index => self.tickets.pop_front(),
            _ => None,
        }
    }

    /// Lets go those of the entries from a cut on, and answers them: it is not known what becomes of them.
    pub fn give_up(
        &mut self,
        cut: Option<(u64, Hash, Hash)>,
        answers: &mut AnswerList,
    ) -> Result<(), Memory>
        ensures left { OnOk result (self.new ≡ tickets_left cut self.old) }
        ensures answers { OnOk result (answers.new ≡ answers.old ++ given_up cut self.old) }
    {
        match cut {
            Some((index, old, new)) => self.give_up_from(index, old, new, answers),
            None => Ok(()),
        }
    }

    /// The same of those from an index on, with the hash that stood there and the one that stands there now.
    fn give_up_from(
        &mut self,
        index: u64,
        old: Hash,
        new: Hash,
        answers: &mut AnswerList,
    ) -> Result<(), Memory>
        ensures left { OnOk result (self.new ≡ tickets_left (Some (index, old, new)) self.old) }
        ensures answers { OnOk result (answers.new ≡ answers.old ++ given_up (Some (index, old, new)) self.old) }
    {
        for ticket in self.tickets.iter() {
            if ticket.index < index {
                continue;
            }
            let answer = Answer::Undecided(index, old, new);
            answers.push((ticket.client, ticket.number, answer))?;
        }
        self.tickets.retain(|ticket| ticket.index < index);
        Ok(())
    }

    /// A copy of them.
    pub fn copy(&self) -> Result<Tickets, Memory>
        ensures { IfOk result (λ copy. copy ≡ self.now) }
    {
        let alloc = *self.tickets.allocator();
        let mut tickets = VecDeque::with_capacity(alloc, self.tickets.len())?;
        for ticket in self.tickets.iter() {
            tickets.push_back(*ticket)?;
        }
        Ok(Tickets { tickets })
    }
}
