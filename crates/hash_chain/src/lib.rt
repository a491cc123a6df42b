//! The chain of hashes over a log: each entry's hash is taken of the hash before it, of its place and of its content.
#![tactic(auto)]

ghost use Rattle.std.specs.Prelude.{◌≡◌, ◌++◌, ◌∷◌, [], replicate};
ghost use Rattle.byteorder.specs.Endian.{big_bytes};
ghost use Rattle.sha2.specs.Sha256.{sha256};
ghost use Rattle.hash_chain.specs.Links.{link_bytes, BytesTellInputs};

use byteorder::{BigEndian, ByteOrder};
use sha2::{Digest, Sha256};

/// A hash of the chain.
pub type Hash = [u8; 32];

/// The hash of an empty log: 32 zero bytes.
pub fn first() -> Hash
    ensures { result ≡ replicate 32 0 }
{
    [0; 32]
}

/// The hash after an entry: SHA-256 of the hash before it, its index and its term as 8 bytes each, high first, its
/// kind as one byte, and the bytes of its body.
pub fn link(prev: &Hash, index: u64, term: u64, kind: u8, body: &[u8]) -> Hash
    ensures { result ≡ sha256 (link_bytes prev.now index term kind body.now) }
{
    link_parts(prev, index, term, kind, body, &[])
}

/// The same where the body comes in two pieces, so that what already lies in memory is not copied beside what is
/// written before it.
pub fn link_parts(prev: &Hash, index: u64, term: u64, kind: u8, start: &[u8], rest: &[u8]) -> Hash
    ensures { result ≡ sha256 (link_bytes prev.now index term kind (start.now ++ rest.now)) }
{
    let head = head_bytes(index, term, kind);
    let mut hasher = Sha256::new();
    hasher.update(prev);
    hasher.update(&head);
    hasher.update(start);
    hasher.update(rest);
    hasher.finalize()
}

/// What stands between the hash before an entry and the entry's body.
fn head_bytes(index: u64, term: u64, kind: u8) -> [u8; 17]
    ensures { result ≡ big_bytes 8 index ++ (big_bytes 8 term ++ kind ∷ []) }
{
    let mut bytes = [0; 17];
    BigEndian::write_u64(&mut bytes, index);
    BigEndian::write_u64(&mut bytes[8..], term);
    bytes[16] = kind;
    bytes
}

/// The law that different inputs of [`link`] are different bytes: two inputs with one hash are a collision of
/// SHA-256. It does nothing.
pub fn bytes_tell_inputs()
    ensures { BytesTellInputs }
{}

#[cfg(test)]
mod tests {
    use super::*;

    // Both digests by another implementation of SHA-256.
    #[test]
    fn links_of_two_entries(rt: HostRuntime) {
        let empty_body = [
            0xb9, 0x76, 0xe3, 0x21, 0x40, 0x1b, 0x66, 0xf3, 0x65, 0x61, 0x50, 0x69, 0x66, 0xde,
            0x59, 0x70, 0x34, 0x64, 0xa9, 0xeb, 0xff, 0x6c, 0xd6, 0xd5, 0x84, 0xa1, 0x74, 0xa1,
            0x4c, 0x40, 0x9a, 0xb1,
        ];
        let members = [
            0x1c, 0x4e, 0x88, 0x04, 0x10, 0x8b, 0x51, 0x79, 0xa6, 0xef, 0xcf, 0x83, 0xa8, 0x98,
            0xe8, 0x72, 0xf8, 0xba, 0x39, 0x06, 0x18, 0xdf, 0x3f, 0x68, 0x1b, 0xa4, 0x19, 0x1b,
            0xf2, 0xf3, 0xaf, 0xd2,
        ];
        assert_eq!(rt; link(&first(), 1, 1, 0, &[]), empty_body);
        let body = b"\x01\x03\0\0\0\x01\0\0\0\x02\0\0\xff\xff";
        assert_eq!(rt; link(&first(), 1, 2, 2, body), members);
        assert_eq!(rt;
            link_parts(&first(), 1, 2, 2, &body[..2], &body[2..]),
            members
        );
    }
}
