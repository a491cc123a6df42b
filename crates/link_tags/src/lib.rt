//! Tags over the frames of a link that others can write to.
//!
//! Two ends share a key. Each frame carries the HMAC-SHA-256 of the side that sealed it, of its number and of its content.
//! So a frame that was changed, that comes again or comes back does not pass, nor one behind a frame that is missing.
#![tactic(auto)]

ghost use Rattle.link_tags.specs.Passing.{SealedContentsPassOnce};

mod ends;
mod keyed;
mod relaying;
mod same;

pub use ends::{Side, TagEnd, WrongTag};
pub use keyed::hmac;
pub use relaying::relay;

/// The law that of the frames which one new end sealed, offered to the other new end in any order and any of them often or
/// never, the first few pass, in order and each once: each that is offered in its turn. It asks that no two different
/// texts that are tagged or checked there have one tag. It does nothing.
pub fn sealed_contents_pass_once()
    ensures { SealedContentsPassOnce }
{}

#[cfg(test)]
mod tests;
