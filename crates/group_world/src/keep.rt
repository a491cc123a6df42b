//! What a world keeps of a batch.
ghost use Rattle.std.specs.Prelude.{◌≡◌, ◌++◌, map, option_to_list, OnOk};
ghost use Rattle.group_model.specs.Group.{committed_in};
ghost use Rattle.group_world.specs.Keeping.{kept_answer, kept_conf, letters_of};
ghost use Rattle.group_world.specs.Plays.{Keeps};

use crate::answered::Answered;
use crate::post::{Fate, Letter, Post};
use crate::told::Told;
use crate::world::World;
use host_msgs::FrameList;
use values::{Answer, Batch, ClientId, Ids, Memory, PeerMsg, ReplicaId, TryCopy};

impl World {
    /// Keeps what a replica left, with the frames of its messages in their order.
    pub(crate) fn keep(
        &mut self,
        id: ReplicaId,
        batch: &Batch,
        frames: FrameList,
    ) -> Result<(), Memory>
        ensures keeps { OnOk result (Keeps self.old self.new id batch.now frames) }
        ensures running { self.new.running.items ≡ self.old.running.items }
    {
        send_all(&mut self.post, id, batch.sent.as_slice(), frames)?;
        answer_all(&mut self.answers, batch.answers.as_slice())?;
        save(&mut self.saves, id, batch.saved)?;
        tell_all(&mut self.confs, batch.members.as_slice())?;
        self.committed = self.committed.max(committed_in(batch));
        Ok(())
    }
}

/// Sends the messages of a batch, each in its frame.
fn send_all(
    post: &mut Post,
    from: ReplicaId,
    sent: &[(ReplicaId, PeerMsg)],
    frames: FrameList,
) -> Result<(), Memory>
    ensures { OnOk result (post.new ≡ post.old ++ letters_of from sent.now frames) }
{
    let mut frames = frames.into_vec().into_iter();
    for (to, _message) in sent {
        let Some(frame) = frames.next() else {
            return Ok(());
        };
        post.send(Letter {
            from,
            to: *to,
            frame,
            fate: Fate::Waiting,
        })?;
    }
    Ok(())
}

/// Keeps answers.
fn answer_all(answers: &mut Vec<Answered>, given: &[(ClientId, u64, Answer)]) -> Result<(), Memory>
    ensures { OnOk result (answers.new.items ≡ answers.old.items ++ map kept_answer given.now) }
{
    let alloc = *answers.allocator();
    for (client, number, answer) in given {
        answers.push(Answered {
            client: *client,
            number: *number,
            answer: answer.copy(alloc)?,
        })?;
    }
    Ok(())
}

/// Keeps configurations.
fn tell_all(confs: &mut Vec<Told>, members: &[(u64, u8, Ids)]) -> Result<(), Memory>
    ensures { OnOk result (confs.new.items ≡ confs.old.items ++ map kept_conf members.now) }
{
    let alloc = *confs.allocator();
    for (_index, margin, voters) in members {
        confs.push(Told {
            margin: *margin,
            voters: voters.copy(alloc)?,
        })?;
    }
    Ok(())
}

/// Keeps whose state was saved, if one was.
fn save(saves: &mut Vec<ReplicaId>, id: ReplicaId, saved: Option<u32>) -> Result<(), Memory>
    ensures { OnOk result (saves.new.items ≡ saves.old.items ++ map (λ k. id) (option_to_list saved)) }
{
    if saved.is_some() {
        saves.push(id)?;
    }
    Ok(())
}

/// The greatest committed index that a batch tells.
fn committed_in(batch: &Batch) -> u64
    ensures { result ≡ committed_in batch.now }
{
    let mut greatest = match &batch.taken {
        Some(point) => point.index,
        None => 0,
    };
    for (index, _entry) in batch.commits.as_slice() {
        greatest = greatest.max(*index);
    }
    greatest
}
