//! The messages that a member lists.

ghost use Rattle.std.specs.Prelude.{◌≡◌, ◌≤◌, ◌<◌, ◌+◌, ◌^◌, ◌++◌, ◌∷◌, [], ℕ, false, List, length, drop, nat_le, vec_capacity, IfErr, OnOk, None, Some};
ghost use Rattle.std.specs.Result.{result_err};
ghost use Rattle.proto_wire.specs.Fields.{sequence_at};
ghost use Rattle.group_msgs.specs.Known.{Known, known_of};
ghost use Rattle.group_msgs.specs.Rules.{rule};
ghost use Rattle.group_msgs.specs.Gathered.{IsList};
ghost use Rattle.group_msgs.specs.declared.fault.PeerFault.TheVariants as faults;

use crate::check::check_next;
use crate::fault::PeerFault;
use crate::scalars::Scalars;
use proto_wire::WireFault;
use std::alloc::Global;
use values::ROWS_PER_PART;

/// How many messages there are, what the rules find of them, and the first of them: as many as a valid list can have.
/// The room for these is taken once, with the first message. Where it is not there none is kept, and the checks go on.
#[derive(Drop)]
pub(crate) struct Listed<'a> {
    pub count: usize,
    /// The first rule that one of them breaks.
    pub checked: Result<(), PeerFault>,
    pub first: Vec<Scalars<'a>>,
    /// Whether memory for them ran out.
    pub lost: bool,
}

impl<'a> Listed<'a> {
    /// An empty list.
    pub(crate) fn new(alloc: Global) -> Listed<'a>
        ensures { (member : ℕ) → IsList member result [] }
    {
        Listed {
            count: 0,
            checked: Ok(()),
            first: Vec::new(alloc),
            lost: false,
        }
    }

    pub(crate) fn clear(&mut self)
        ensures { (member : ℕ) → IsList member self.new [] }
    {
        self.count = 0;
        self.checked = Ok(());
        self.first.clear();
        self.lost = false;
    }

    /// The fault of the field that lists them, if they are more than so many.
    pub(crate) fn at_most(&self, most: u64, field: u32) -> Result<(), PeerFault>
        ensures { result_err result ≡ rule (nat_le self.now.count most) (faults.Size field self.now.count) }
    {
        let count = self.count as u64;
        if count > most {
            return Err(PeerFault::Size(field, count));
        }
        Ok(())
    }

    /// Reads one more message of this member, whose fields stand from an offset to the end of the bytes, and checks it.
    /// One that is kept is read where it is kept.
    pub(crate) fn read(
        &mut self,
        member: u64,
        bytes: &'a [u8],
        from: usize,
    ) -> Result<(), WireFault>
        requires few { self.old.count < 2 ^ 63 }
        requires from { from ≤ length bytes.now }
        ensures list { OnOk result ((all : List Known) → IsList member self.old all → IsList member self.new (all ++ known_of (sequence_at from (drop from bytes.now)).fields ∷ [])) }
        ensures count { self.new.count ≤ self.old.count + 1 }
        ensures whole { OnOk result ((sequence_at from (drop from bytes.now)).fault ≡ None) }
        ensures fault { IfErr result (λ e. (sequence_at from (drop from bytes.now)).fault ≡ Some e) }
    {
        self.make_room();
        let place = self.count as u64;
        self.count += 1;
        let kept = self.first.len();
        if self.lost || kept >= ROWS_PER_PART as usize {
            let mut item = Scalars::empty();
            item.read(bytes, from)?;
            self.checked = check_next(self.checked, member, place, &item);
            return Ok(());
        }
        self.first.push_reserved(Scalars::empty());
        self.first[kept].read(bytes, from)?;
        self.checked = check_next(self.checked, member, place, &self.first[kept]);
        Ok(())
    }

    /// Takes the room, where it is not yet taken.
    fn make_room(&mut self)
        ensures room { self.new.lost ≡ false → ROWS_PER_PART ≤ vec_capacity self.new.first }
        ensures count { self.new.count ≡ self.old.count }
        ensures list { (member : ℕ) (all : List Known) → IsList member self.old all → IsList member self.new all }
    {
        let most = ROWS_PER_PART as usize;
        if !self.lost && self.first.capacity() < most {
            self.lost = self.first.reserve(most).is_err();
        }
    }
}
