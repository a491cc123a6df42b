//! The two ends of a link.

ghost use Rattle.std.specs.Prelude.{◌≡◌, ◌+◌, ◌<◌, ◌≤◌, ◌++◌, length, is_ok, IfErr, OnOk, OnErr, if◌then◌else◌};
ghost use Rattle.link_tags.specs.Hmac.{hmac_of};
ghost use Rattle.link_tags.specs.Ends.{End, new_end, other, byte_of, text_of, next_tag, sealed_frame, after_seal, is_right, after_check};

use crate::keyed::Keyed;
use crate::same::same_tag;
use std::marker::Model;
use values::{Hash, MAX_BATCH, Memory, TOP};

/// The two sides of a link: a host, and its enclave.
#[derive(Clone, Copy, Debug, PartialEq, Eq)]
pub enum Side {
    Host,
    Enclave,
}

/// A tag that is not the one of the frame which is due.
#[derive(Clone, Copy, Debug, PartialEq, Eq)]
pub struct WrongTag {
    /// The number of the frame that is due.
    pub counter: u64,
}

/// One end of a link. It numbers the frames that it seals, and those of the other end that pass, each from 0. Contracts
/// see its key, its side and both counters. It has no `Debug`, so that no text shows the key.
#[derive(Drop)]
pub struct TagEnd {
    // What the clauses name the end by. The code needs only its hashers.
    key: [u8; 32],
    keyed: Keyed,
    side: Side,
    own: u64,
    heard: u64,
}

impl Model for TagEnd {
    ghost use Rattle.link_tags.specs.Ends.{End};
    ghost use Rattle.link_tags.specs.Keyed.{IsKeyed};

    ghost Value = { End };

    ghost view = { λ a. record { key = a.key; side = a.side; own = a.own; heard = a.heard } };

    ghost invariant = { λ a. IsKeyed a.keyed a.key };
}

impl TagEnd {
    /// The end of this side, with both counters at 0.
    pub fn new(key: [u8; 32], side: Side) -> TagEnd
        ensures { result ≡ new_end key side }
    {
        TagEnd {
            key,
            keyed: Keyed::new(&key),
            side,
            own: 0,
            heard: 0,
        }
    }

    /// Appends the frame of a content: its length as 4 bytes, the content and the tag. After `Memory` the end and `out`
    /// are unchanged.
    pub fn seal(&mut self, content: &[u8], out: &mut Vec<u8>) -> Result<(), Memory>
        requires short { length content.now ≤ MAX_BATCH }
        requires below_top { self.old.own < TOP }
        ensures frame { OnOk result (out.new.items ≡ out.old.items ++ sealed_frame hmac_of self.old content.now) }
        ensures end { OnOk result (self.new ≡ after_seal self.old) }
        ensures out_stays { OnErr result (out.new.items ≡ out.old.items) }
        ensures end_stays { OnErr result (self.new ≡ self.old) }
    {
        out.reserve(4 + content.len() + 32)?;
        let tag = self.next_tag(content);
        out.extend_from_slice(&(content.len() as u32).to_be_bytes())
            .unwrap();
        out.extend_from_slice(content).unwrap();
        out.extend_from_slice(&tag.0).unwrap();
        Ok(())
    }

    /// The tag of the next frame that this end seals, for a content that stands where it is sent from.
    pub fn next_tag(&mut self, content: &[u8]) -> Hash
        requires { self.old.own < TOP }
        ensures tag { result.0 ≡ next_tag hmac_of self.old content.now }
        ensures end { self.new ≡ after_seal self.old }
    {
        let tag = self.tag(self.side, self.own, content);
        self.own += 1;
        tag
    }

    /// Takes a frame of the other end, if it is the next one. After a `WrongTag` the end is unchanged.
    pub fn check(&mut self, content: &[u8], tag: &Hash) -> Result<(), WrongTag>
        requires { self.old.heard < TOP }
        ensures right { is_ok result ≡ is_right hmac_of self.old content.now tag.now.0 }
        ensures wrong { IfErr result (λ wrong. wrong.counter ≡ self.old.heard) }
        ensures end { OnOk result (self.new ≡ after_check self.old) }
        ensures stays { OnErr result (self.new ≡ self.old) }
    {
        let due = self.tag(self.side.other(), self.heard, content);
        if !same_tag(&tag.0, &due.0) {
            return Err(WrongTag {
                counter: self.heard,
            });
        }
        self.heard += 1;
        Ok(())
    }

    /// The tag of a content in a frame of this side and number.
    fn tag(&self, side: Side, number: u64, content: &[u8]) -> Hash
        ensures { result.0 ≡ hmac_of self.now.key (text_of side number content.now) }
    {
        let mut head = [side.byte(); 9];
        head[1..].copy_from_slice(&number.to_be_bytes());
        self.keyed.hash(&head, content)
    }
}

impl Side {
    /// The other side of the link.
    pub fn other(self) -> Side
        ensures { result ≡ other self }
    {
        match self {
            Side::Host => Side::Enclave,
            Side::Enclave => Side::Host,
        }
    }

    /// The byte that stands for this side in what a tag is made of.
    fn byte(self) -> u8
        ensures { result ≡ byte_of self }
    {
        match self {
            Side::Host => 1,
            Side::Enclave => 2,
        }
    }
}
