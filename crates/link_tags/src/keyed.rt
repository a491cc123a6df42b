//! HMAC-SHA-256, as RFC 2104 has it.

ghost use Rattle.std.specs.Prelude.{◌≡◌, ◌≤◌, ◌++◌, ℕ, List, length};
ghost use Rattle.link_tags.specs.Hmac.{hmac_of, padded_key};
ghost use Rattle.link_tags.specs.Keyed.{IsKeyed};

use sha2::{Digest, Sha256};
use values::Hash;

/// The bytes of a block of SHA-256.
const BLOCK: usize = 64;
/// What the key's bytes are changed by before the text, and before the text's hash.
const INNER_PAD: u8 = 0x36;

const OUTER_PAD: u8 = 0x5c;

/// The HMAC-SHA-256 of a text under a key of at most 64 bytes.
pub fn hmac(key: &[u8], text: &[u8]) -> Hash
    requires { length key.now ≤ 64 }
    ensures { result.0 ≡ hmac_of key.now text.now }
{
    Keyed::new(key).hash(&[], text)
}

/// A key whose two blocks are hashed already: what hashes a text takes up from there.
#[derive(Drop)]
pub(crate) struct Keyed {
    inner: Sha256,
    outer: Sha256,
}

impl Keyed {
    pub(crate) fn new(key: &[u8]) -> Keyed
        requires { length key.now ≤ 64 }
        ensures { IsKeyed result key.now }
    {
        Keyed {
            inner: Sha256::new_with_prefix(padded(key, INNER_PAD)),
            outer: Sha256::new_with_prefix(padded(key, OUTER_PAD)),
        }
    }

    /// The HMAC of a text that comes in two pieces, so that neither is copied.
    pub(crate) fn hash(&self, head: &[u8], rest: &[u8]) -> Hash
        ensures { (key : List ℕ) → IsKeyed self.now key → result.0 ≡ hmac_of key (head.now ++ rest.now) }
    {
        let mut inner = self.inner.clone().unwrap();
        inner.update(head);
        inner.update(rest);
        let mut outer = self.outer.clone().unwrap();
        outer.update(inner.finalize());
        Hash(outer.finalize())
    }
}

/// The key with zero bytes up to a block, each byte changed by the pad's.
fn padded(key: &[u8], pad: u8) -> [u8; BLOCK]
    requires { length key.now ≤ 64 }
    ensures { result ≡ padded_key pad key.now }
{
    let mut block = [pad; BLOCK];
    for i in 0..key.len() {
        block[i] ^= key[i];
    }
    block
}
