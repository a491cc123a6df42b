//! Messages between replicas: all that were sent, by number, and which of them wait.
//!
//! A letter's number is its place in the list, from 1. To find the next letter that waits, without a look at those
//! before it, each addressee has a queue of the numbers of its letters; what was delivered or lost in the meantime is
//! passed over when it comes to the front.
ghost use Rattle.std.specs.Prelude.{ℕ, ◌≡◌, ◌≢◌, ◌++◌, ◌∷◌, ◌==◌, ◌≤◌, ◌<◌, [], cond, false, filter, length, option_copied, OnErr, OnOk};
ghost use Rattle.std.specs.List.{AllByRecursion};
ghost use Rattle.group_model.specs.Group.{numbered};
ghost use Rattle.group_world.specs.declared.post.Fate.TheVariants as fates;
ghost use Rattle.group_world.specs.Posted.{fated, is_waiting, next_in};
ghost use Rattle.group_world.specs.Queues.{earlier, first, queue_of, waits_in};

use std::alloc::Global;
use std::collections::{BTreeMap, VecDeque};
use std::marker::Model;
use values::{Bytes, Memory, ReplicaId};

/// What became of a letter.
#[derive(Clone, Copy, Debug, PartialEq, Eq)]
pub(crate) enum Fate {
    /// It was neither delivered nor lost.
    Waiting,
    /// It was delivered at least once.
    Delivered,
    /// It is lost.
    Lost,
}

/// A message as it was sent.
#[derive(Drop)]
pub(crate) struct Letter {
    pub from: ReplicaId,
    pub to: ReplicaId,
    /// Its link frame.
    pub frame: Bytes,
    pub fate: Fate,
}

/// The numbers of letters, by addressee.
type Queues = BTreeMap<ReplicaId, VecDeque<u64>>;

/// All messages that were sent. Contracts see the list of letters.
#[derive(Drop)]
pub(crate) struct Post {
    letters: Vec<Letter>,
    /// For each addressee the numbers of its letters, in rising order. The first one of each queue waits.
    queues: Queues,
}

impl Model for Post {
    ghost use Rattle.std.specs.Prelude.{List};
    ghost use Rattle.group_world.specs.declared.post.Letter.{Letter};
    ghost use Rattle.group_world.specs.Queues.{AreQueues};

    ghost Value = { List Letter };

    ghost view = { λ p. p.letters.items };

    ghost invariant = { λ p. AreQueues p.letters.items p.queues };
}

impl Post {
    /// A post without letters.
    pub fn new(alloc: Global) -> Post
        ensures { result ≡ [] }
    {
        Post {
            letters: Vec::new(alloc),
            queues: BTreeMap::new(alloc),
        }
    }

    /// How many letters were sent.
    pub fn count(&self) -> u64
        ensures { result ≡ length self.now }
    {
        self.letters.len() as u64
    }

    /// Takes a letter, which waits. After `Memory` the post is as it was.
    pub fn send(&mut self, letter: Letter) -> Result<(), Memory>
        requires { letter.fate ≡ fates.Waiting }
        ensures sent { OnOk result (self.new ≡ self.old ++ letter ∷ []) }
        ensures unsent { OnErr result (self.new ≡ self.old) }
    {
        let alloc = *self.letters.allocator();
        let to = letter.to;
        self.letters.push(letter)?;
        let number = self.letters.len() as u64;
        match enqueue(&mut self.queues, alloc, to, number) {
            Ok(()) => Ok(()),
            Err(Memory) => {
                self.letters.pop();
                Err(Memory)
            }
        }
    }

    /// The letter of this number, from 1.
    pub fn letter(&self, number: u64) -> Option<&Letter>
        ensures { option_copied result ≡ numbered self.now number }
    {
        let place = number.checked_sub(1)?;
        self.letters.as_slice().get(place as usize)
    }

    /// Gives the letter at this place, from 0, another fate, by which it waits no more.
    pub fn mark(&mut self, place: usize, fate: Fate)
        requires place { place < length self.old }
        requires fate { is_waiting fate ≡ false }
        ensures { self.new ≡ fated self.old place fate }
    {
        let letter = &mut self.letters[place];
        letter.fate = fate;
        let to = letter.to;
        pass_over(&mut self.queues, to, self.letters.as_slice());
    }

    /// The least number of a letter that waits and is for one of these.
    pub fn next(&self, running: &[ReplicaId]) -> Option<u64>
        ensures { result ≡ next_in running.now self.now }
    {
        let mut next = None;
        for id in running {
            next = earlier(next, self.next_for(*id));
        }
        next
    }

    /// The least number of a letter that waits and is for this one.
    fn next_for(&self, id: ReplicaId) -> Option<u64>
        ensures { result ≡ next_in (id ∷ []) self.now }
    {
        self.queues.get(&id)?.front().copied()
    }
}

/// Puts a number behind those of an addressee.
fn enqueue(queues: &mut Queues, alloc: Global, to: ReplicaId, number: u64) -> Result<(), Memory>
    ensures queued { OnOk result ((id : ℕ) → queue_of queues.new id ≡ queue_of queues.old id ++ cond (id == to) (number ∷ []) []) }
    ensures same { OnErr result ((id : ℕ) → queue_of queues.new id ≡ queue_of queues.old id) }
{
    if let Some(queue) = queues.get_mut(&to) {
        queue.push_back(number)?;
        return Ok(());
    }
    let mut queue = VecDeque::new(alloc);
    queue.push_back(number)?;
    queues.insert(to, queue)?;
    Ok(())
}

/// Takes the numbers of letters that wait no more from the front of the queue of an addressee.
fn pass_over(queues: &mut Queues, to: ReplicaId, letters: &[Letter])
    ensures holds { filter (waits_in letters.now) (queue_of queues.new to) ≡ filter (waits_in letters.now) (queue_of queues.old to) }
    ensures begins { first (queue_of queues.new to) ≡ first (filter (waits_in letters.now) (queue_of queues.new to)) }
    ensures sent { (n : ℕ) → AllByRecursion (λ k. k ≤ n) (queue_of queues.old to) → AllByRecursion (λ k. k ≤ n) (queue_of queues.new to) }
    ensures others { (id : ℕ) → id ≢ to → queue_of queues.new id ≡ queue_of queues.old id }
{
    if let Some(queue) = queues.get_mut(&to) {
        shorten(queue, letters);
    }
}

/// Takes the numbers of letters that wait no more from the front of a queue.
fn shorten(queue: &mut VecDeque<u64>, letters: &[Letter])
    ensures holds { filter (waits_in letters.now) queue.new.items ≡ filter (waits_in letters.now) queue.old.items }
    ensures begins { first queue.new.items ≡ first (filter (waits_in letters.now) queue.new.items) }
    ensures sent { (n : ℕ) → AllByRecursion (λ k. k ≤ n) queue.old.items → AllByRecursion (λ k. k ≤ n) queue.new.items }
{
    while let Some(number) = queue.front().copied() {
        if waits(letters, number) {
            return;
        }
        queue.pop_front();
    }
}

/// Whether the letter of this number waits.
fn waits(letters: &[Letter], number: u64) -> bool
    ensures { result ≡ waits_in letters.now number }
{
    let Some(place) = number.checked_sub(1) else {
        return false;
    };
    match letters.get(place as usize) {
        Some(letter) => letter.fate == Fate::Waiting,
        None => false,
    }
}

/// The lesser number, where there are both.
fn earlier(a: Option<u64>, b: Option<u64>) -> Option<u64>
    ensures { result ≡ earlier a b }
{
    match (a, b) {
        (Some(a), Some(b)) => Some(a.min(b)),
        (Some(a), None) => Some(a),
        (None, b) => b,
    }
}
