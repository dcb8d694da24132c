// FNV-1a of 64 bits: the hash of an expression over its words, and its step for callers that hash bytes one by one.
ghost use Rattle.std.specs.Prelude.{◌≡◌};
ghost use Rattle.std.specs.List.{fold};
ghost use Rattle.std.specs.Int.{w64, to_le_bytes};
ghost use Rattle.lucid_base.specs.Hash.{offset_basis, with_byte, hash_of};

use crate::{Bits, Width};

// The factor for each byte.
const PRIME: u64 = 0x0000_0100_0000_01b3;

/// Returns the hash of no bytes, with which a hash begins.
pub fn hash_start() -> u64
    ensures { result ≡ offset_basis }
{
    0xcbf2_9ce4_8422_2325
}

/// Returns the hash once one more byte is read.
pub fn hash_byte(hash: u64, byte: u8) -> u64
    ensures { result ≡ with_byte hash byte }
{
    (hash ^ u64::from(byte)).wrapping_mul(PRIME)
}

/// Returns the hash once the eight bytes of one more word are read, the lowest first.
pub fn hash_word(hash: u64, word: u64) -> u64
    ensures { result ≡ fold with_byte hash (to_le_bytes w64 word) }
{
    word.to_le_bytes()
        .iter()
        .fold(hash, |hash, byte| hash_byte(hash, *byte))
}

/// Returns the low bits of FNV-1a 64 over the little-endian bytes of the words. The seed is the first word.
pub fn hash_bits(to: Width, words: &[u64]) -> Bits
    ensures width { result.width ≡ to }
    ensures value { result.value ≡ hash_of to words.now }
{
    let hash = words
        .iter()
        .fold(hash_start(), |hash, word| hash_word(hash, *word));
    Bits {
        width: to,
        value: to.low(hash),
    }
}
