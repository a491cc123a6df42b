//! What stands behind the content of each frame.
ghost use Rattle.std.specs.Prelude.{ℕ, ◌≡◌, ◌+◌, ◌<◌, ◌++◌, ◌≤◌, true, length, drop, OnOk, OnErr};
ghost use Rattle.trace_model.specs.Session.{Tagging, untagged};

use link_tags::TagEnd;
use values::{Hash, Memory, TOP};

/// The tags of an enclave's end of a session: it checks those of the frames that come, and makes those of its batch frames.
/// Frames are numbered from 0.
pub(crate) trait Tags {
    /// How tags are made.
    ghost tagging: { Self → Tagging };

    /// So many frames were checked, and so many batch frames were tagged.
    ghost stands: { Self → (heard own : ℕ) → Type 0 };

    /// How many bytes a tag has.
    fn size(&self) -> usize
        ensures size { result ≡ (tagging self.now).size }
        ensures few { result ≤ 32 };

    /// Whether this is the right tag of the frame of this number, which is the next one. Where it is not, nothing has changed.
    fn check(&mut self, number: u64, content: &[u8], tag: &[u8]) -> bool
        requires count { number < TOP }
        requires stands { (own : ℕ) × stands self.old number own }
        requires size { length tag.now ≡ (tagging self.old).size }
        ensures same { tagging self.new ≡ tagging self.old }
        ensures right { (own : ℕ) → stands self.old number own → result ≡ (tagging self.old).is_right number content.now tag.now }
        ensures goes_on { (own : ℕ) → stands self.old number own → result ≡ true → stands self.new (number + 1) own };

    /// Appends the tag of the batch frame of this number, which is the next one: its content stands in `out` from here on.
    fn push_tag(&mut self, number: u64, out: &mut Vec<u8>, from: usize) -> Result<(), Memory>
        requires count { number < TOP }
        requires stands { (heard : ℕ) × stands self.old heard number }
        requires within { from ≤ length out.old.items }
        ensures same { tagging self.new ≡ tagging self.old }
        ensures tag { (heard : ℕ) → stands self.old heard number
            → OnOk result (out.new.items ≡ out.old.items ++ (tagging self.old).tag_of number (drop from out.old.items)) }
        ensures goes_on { (heard : ℕ) → stands self.old heard number → OnOk result (stands self.new heard (number + 1)) };
}

/// No tags.
#[derive(Drop)]
pub(crate) struct Untagged;

impl Tags for Untagged {
    ghost tagging = { λ _. untagged };

    ghost stands = { λ _ heard own. Unit {0} };

    fn size(&self) -> usize {
        0
    }

    fn check(&mut self, _number: u64, _content: &[u8], _tag: &[u8]) -> bool {
        true
    }

    fn push_tag(&mut self, _number: u64, _out: &mut Vec<u8>, _from: usize) -> Result<(), Memory> {
        Ok(())
    }
}

impl Tags for TagEnd {
    ghost use Rattle.std.specs.Prelude.{◌≡◌};
    ghost use Rattle.link_tags.specs.Hmac.{hmac_of};
    ghost use Rattle.link_tags.specs.declared.ends.Side.TheVariants.{Enclave};
    ghost use Rattle.trace_model.specs.Session.{tagged_by};

    ghost tagging = { λ a. tagged_by (hmac_of a.key) };

    ghost stands = { λ a heard own. (a.side ≡ Enclave) × (a.heard ≡ heard) × (a.own ≡ own) };

    fn size(&self) -> usize {
        32
    }

    fn check(&mut self, _number: u64, content: &[u8], tag: &[u8]) -> bool {
        let mut told = Hash([0; 32]);
        told.0.copy_from_slice(tag);
        TagEnd::check(self, content, &told).is_ok()
    }

    fn push_tag(&mut self, _number: u64, out: &mut Vec<u8>, from: usize) -> Result<(), Memory> {
        let tag = self.next_tag(&out[from..]);
        out.extend_from_slice(&tag.0)?;
        Ok(())
    }
}
