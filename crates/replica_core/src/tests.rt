//! Replicas that hand messages to each other, against worked examples, and each public call on its happy path.
ghost use Rattle.std.specs.Prelude.{◌≡◌, ◌≤◌, length};
ghost use Rattle.group_quorum.specs.Voters.{IsId};
ghost use Rattle.group_quorum.specs.declared.TheConstants.{MAX_VOTERS};
ghost use Rattle.replica_model.specs.Call.{empty_batch};
ghost use Rattle.replica_core.specs.Inputs.{IsInputInRange};

use crate::replica::State;
use crate::{Input, Replica, StepFault};
use client_msgs::write_request;
use group_quorum::Config;
use std::alloc::Global;
use std::marker::Model;
use std::test::Fail;
use values::{Batch, Bytes, ClientId, Hash, Items, PeerMsg, Refusal, ReplicaId, Request, TryCopy};

/// A message on its way.
#[derive(Debug, Drop)]
struct Letter {
    from: ReplicaId,
    to: ReplicaId,
    msg: PeerMsg,
}

impl Model for Letter {
    ghost use Rattle.std.specs.Prelude.{ℕ};
    ghost use Rattle.values.specs.declared.peer.PeerMsg.{PeerMsg};
    ghost use Rattle.group_quorum.specs.Voters.{IsId};
    ghost use Rattle.group_msgs.specs.Ranges.{IsInRange};

    ghost Value = { ℕ × ℕ × PeerMsg };

    ghost view = { λ l. (l.from, l.to, l.msg) };

    ghost invariant = { λ l. IsId l.from × (IsId l.to × IsInRange l.msg) };
}

/// Replicas by their ids from 1 on, and the messages that they sent, in order.
#[derive(Debug, Drop)]
struct Group {
    alloc: Global,
    replicas: Vec<Replica>,
    letters: Vec<Letter>,
}

/// A message in numbers: whom it is for, its kind by its field in a peer message, its term, and what it says.
type Numbers = [u64; 7];

fn numbers(to: ReplicaId, msg: &PeerMsg) -> Numbers {
    let to = u64::from(to);
    match msg {
        PeerMsg::AskVote {
            term,
            last_index,
            last_term,
        } => [to, 2, *term, *last_index, *last_term, 0, 0],
        PeerMsg::Vote { term, granted } => [to, 3, *term, u64::from(*granted), 0, 0, 0],
        PeerMsg::Append {
            term,
            prev,
            entries,
            promise,
            commit,
        } => [
            to,
            4,
            *term,
            prev.index,
            entries.len() as u64,
            *promise,
            *commit,
        ],
        PeerMsg::Accepted {
            term,
            end,
            promised,
        } => [to, 5, *term, end.index, *promised, 0, 0],
        PeerMsg::Rejected { term, asked, hint } => [to, 6, *term, *asked, *hint, 0, 0],
        PeerMsg::Part { term, part } => {
            let number = u64::from(part.part);
            [
                to,
                7,
                *term,
                part.point.index,
                number,
                u64::from(part.parts),
                part.rows.len() as u64,
            ]
        }
        PeerMsg::PartTaken { term, point, next } => [
            to,
            8,
            *term,
            point.index,
            u64::from(*next),
            0,
            0,
        ],
    }
}

/// A batch that tells nothing.
fn nothing(alloc: Global) -> Batch
    ensures { result ≡ empty_batch }
{
    Batch {
        lead: None,
        members: Items::new(alloc),
        halt: None,
        taken: None,
        commits: Items::new(alloc),
        answers: Items::new(alloc),
        sent: Items::new(alloc),
        saved: None,
        refused: None,
    }
}

impl Group {
    /// Voters from 1 on, with margin 0 and at most 100 rows.
    fn of_voters(alloc: Global, voters: &[ReplicaId]) -> Result<Group, Fail>
        requires { length voters.now ≤ MAX_VOTERS }
    {
        let mut replicas = Vec::new(alloc);
        for id in 0..voters.len() as u32 {
            let config = Config::new(voters, 0)?;
            replicas.push(Replica::begin(alloc, id + 1, config, 100))?;
        }
        Ok(Group {
            alloc,
            replicas,
            letters: Vec::new(alloc),
        })
    }

    /// A copy of a replica, if it is of the group.
    fn copy_of(&self, id: ReplicaId) -> Result<Option<Replica>, Fail>
        requires { IsId id }
    {
        Ok(match self.replicas.get(id as usize - 1) {
            Some(replica) => Some(replica.copy()?),
            None => None,
        })
    }

    /// Puts a replica in the place of one of the group.
    fn put(&mut self, id: ReplicaId, replica: Option<Replica>)
        requires { IsId id }
    {
        if let Some(held) = self.replicas.get_mut(id as usize - 1)
            && let Some(replica) = replica
        {
            *held = replica;
        }
    }

    /// One replica takes a step. Answers its batch, and its messages in numbers.
    fn step(&mut self, id: ReplicaId, input: &Input<'_>) -> Result<(Batch, Vec<Numbers>), Fail>
        requires id { IsId id }
        requires range { IsInputInRange input.now }
    {
        let mut batch = nothing(self.alloc);
        let mut told = Vec::new(self.alloc);
        if let Some(replica) = self.replicas.get_mut(id as usize - 1) {
            replica.step(input, &mut batch)?;
        }
        for (to, msg) in batch.sent.as_slice() {
            told.push(numbers(*to, msg))?;
            self.letters.push(Letter {
                from: id,
                to: *to,
                msg: msg.copy(self.alloc)?,
            })?;
        }
        Ok((batch, told))
    }

    /// Hands over a message, by its number from 1.
    fn deliver(&mut self, number: usize) -> Result<(Batch, Vec<Numbers>), Fail> {
        let Some(letter) = self.letters.get(number.saturating_sub(1)) else {
            return Ok((nothing(self.alloc), Vec::new(self.alloc)));
        };
        let (from, to) = (letter.from, letter.to);
        let msg = letter.msg.copy(self.alloc)?;
        self.step(to, &Input::Peer { from, msg })
    }
}

/// The bytes of a backup.
fn backup(alloc: Global) -> Result<Bytes, Fail> {
    let request = Request::Backup {
        secret: Bytes::from_slice(alloc, &[0xaa; 16])?,
        pin: Hash([0x11; 32]),
        tries: 3,
    };
    Ok(write_request(alloc, &request)?)
}

/// The appends of a leader to its two peers.
fn appends(prev: u64, count: u64, promise: u64, commit: u64) -> [Numbers; 2] {
    [
        [2, 4, 1, prev, count, promise, commit],
        [3, 4, 1, prev, count, promise, commit],
    ]
}

fn accepted(end: u64, promised: u64) -> [Numbers; 1] {
    [[1, 5, 1, end, promised, 0, 0]]
}

#[test]
fn repeat_loss_and_catching_up(rt: HostRuntime) -> Result<(), Fail> {
    let mut group = Group::of_voters(rt.alloc(), &[1, 2, 3])?;
    let (_, told) = group.step(1, &Input::Tick)?;
    assert_eq!(rt;
        told.as_slice(),
        [[2, 2, 1, 0, 0, 0, 0], [3, 2, 1, 0, 0, 0, 0]].as_slice()
    );
    for (number, want) in [
        (1, [[1, 3, 1, 1, 0, 0, 0]].as_slice()),
        (2, [[1, 3, 1, 1, 0, 0, 0]].as_slice()),
        (3, appends(0, 1, 0, 0).as_slice()),
        (4, [].as_slice()),
        (5, accepted(1, 0).as_slice()),
        (6, accepted(1, 0).as_slice()),
        (7, appends(1, 0, 1, 0).as_slice()),
        (9, accepted(1, 1).as_slice()),
        (10, accepted(1, 1).as_slice()),
        (11, appends(1, 0, 1, 1).as_slice()),
        (13, accepted(1, 1).as_slice()),
        (14, accepted(1, 1).as_slice()),
    ] {
        let (_, told) = group.deliver(number)?;
        assert_eq!(rt; told.as_slice(), want, "after message {number}");
    }
    let client = ClientId([7; 16]);
    let request = backup(rt.alloc())?;
    let (_, told) = group.step(
        1,
        &Input::Client {
            client,
            number: 1,
            request: request.as_slice(),
        },
    )?;
    assert_eq!(rt; told.as_slice(), appends(1, 1, 1, 1).as_slice());
    // 17 to replica 2 is late, and 18 comes twice
    for (number, want, answers) in [
        (18, accepted(2, 1).as_slice(), 0),
        (18, accepted(2, 1).as_slice(), 0),
        (20, appends(2, 0, 2, 1).as_slice(), 0),
        (22, accepted(2, 2).as_slice(), 0),
        (23, appends(2, 0, 2, 2).as_slice(), 1),
        (21, [[1, 6, 1, 2, 1, 0, 0]].as_slice(), 0),
        (26, [[2, 4, 1, 1, 1, 2, 2]].as_slice(), 0),
        (27, accepted(2, 2).as_slice(), 0),
    ] {
        let (batch, told) = group.deliver(number)?;
        assert_eq!(rt; told.as_slice(), want, "after message {number}");
        assert_eq!(rt; batch.answers.len(), answers, "after message {number}");
    }
    Ok(())
}

#[test]
fn a_table_of_three_parts(rt: HostRuntime) -> Result<(), Fail> {
    let mut group = Group::of_voters(rt.alloc(), &[1])?;
    let (batch, _) = group.step(1, &Input::Tick)?;
    assert_eq!(rt; batch.lead, Some(1));
    let request = backup(rt.alloc())?;
    for n in 0..71 {
        let input = Input::Client {
            client: ClientId([n; 16]),
            number: 1,
            request: request.as_slice(),
        };
        let (batch, _) = group.step(1, &input)?;
        assert_eq!(rt; batch.answers.len(), 1);
    }
    let learner = Replica::learner(rt.alloc(), 2);
    assert_eq!(rt; learner.id(), Some(2));
    group.replicas.push(learner)?;
    let join = Input::Join {
        id: 2,
        linked: true,
    };
    let (_, told) = group.step(1, &join)?;
    assert_eq!(rt; told.as_slice(), [[2, 7, 1, 72, 0, 3, 32]].as_slice());
    for (number, want) in [
        (1, [1, 8, 1, 72, 1, 0, 0]),
        // a repeat is not taken
        (1, [1, 8, 1, 72, 1, 0, 0]),
        (2, [2, 7, 1, 72, 1, 3, 32]),
        (4, [1, 8, 1, 72, 2, 0, 0]),
        (5, [2, 7, 1, 72, 2, 3, 7]),
    ] {
        let (_, told) = group.deliver(number)?;
        assert_eq!(rt;
            told.as_slice(),
            [want].as_slice(),
            "after message {number}"
        );
    }
    // a state that was saved while the table is sent goes on as the replica does
    let saved = group.copy_of(1)?;
    let (batch, told) = group.deliver(6)?;
    assert_eq!(rt; told.as_slice(), [[1, 8, 1, 72, 3, 0, 0]].as_slice());
    assert!(rt; batch.taken.is_some());
    let append = [[2, 4, 1, 72, 0, 72, 72]];
    let (_, told) = group.deliver(7)?;
    assert_eq!(rt; told.as_slice(), append.as_slice());
    group.put(1, saved);
    let (_, told) = group.deliver(7)?;
    assert_eq!(rt; told.as_slice(), append.as_slice());
    Ok(())
}

/// Why replica 1 refuses what it is told.
fn refusal(group: &mut Group, input: &Input<'_>) -> Result<Option<Refusal>, Fail>
    requires { IsInputInRange input.now }
{
    let (batch, _) = group.step(1, input)?;
    Ok(batch.refused)
}

#[test]
fn changes_that_are_refused(rt: HostRuntime) -> Result<(), Fail> {
    let mut group = Group::of_voters(rt.alloc(), &[1])?;
    let admit = Input::Admit { id: 2 };
    let remove = Input::Remove { id: 1 };
    let margin = Input::Margin { margin: 1 };
    let join = Input::Join {
        id: 2,
        linked: false,
    };
    assert_eq!(rt; refusal(&mut group, &remove)?, Some(Refusal::NotLeader(0)));
    let (_, _) = group.step(1, &Input::Tick)?;
    assert_eq!(rt;
        refusal(&mut group, &admit)?,
        Some(Refusal::NotCaughtUp(0, 1))
    );
    assert_eq!(rt; refusal(&mut group, &remove)?, Some(Refusal::TooFew(0)));
    assert_eq!(rt; refusal(&mut group, &margin)?, Some(Refusal::TooFew(1)));
    assert_eq!(rt; refusal(&mut group, &join)?, Some(Refusal::NoLink(2)));
    Ok(())
}

#[test]
fn a_spent_replica_stays_spent(rt: HostRuntime) -> Result<(), Fail> {
    let mut replica = Replica {
        state: State::Spent,
    };
    assert_eq!(rt; replica.id(), None);
    let mut copy = replica.copy()?;
    let mut batch = nothing(rt.alloc());
    let mut other = nothing(rt.alloc());
    assert_eq!(rt;
        replica.step(&Input::Tick, &mut batch),
        Err(StepFault::Spent)
    );
    assert_eq!(rt; copy.step(&Input::Tick, &mut other), Err(StepFault::Spent));
    Ok(())
}
