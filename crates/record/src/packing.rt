// Paths from a byte for each bit.
ghost use Rattle.std.specs.Prelude.{◌≡◌, ◌-◌, ◌<◌, ◌≤◌, true, ◌++◌, length, replicate, is_some, IfSome};
ghost use Rattle.model.specs.Monitor.{are_bits, good_path};
ghost use Rattle.model.specs.Records.{bits};
ghost use Rattle.path.specs.Packs.{path_in};

use path::Path;
use std::array;

// Is each of these bytes 0 or 1? The greatest tells, and the compiler finds it many bytes at a time.
pub fn are_bits(bytes: &[u8]) -> bool
    ensures { result ≡ are_bits bytes.now }
{
    bytes.iter().fold(0, |most, b| most.max(*b)) < 2
}

// Are these the bits of a path: each 0 or 1, and no more than a key's path has?
pub fn is_good_path(bytes: &[u8]) -> bool
    ensures { result ≡ good_path bytes.now }
{
    bytes.len() <= 256 && are_bits(bytes)
}

// The path with these bits, if they are a path's.
pub fn path_from_bits(bytes: &[u8]) -> Option<Path>
    ensures some { is_some result ≡ good_path bytes.now }
    ensures path { IfSome result (λ p. path_in p.len p.bits ≡ bytes.now) }
    ensures len { IfSome result (λ p. p.len ≡ length bytes.now) }
{
    if !is_good_path(bytes) {
        return None;
    }
    let filled = fill(bytes);
    Some(Path {
        len: bytes.len(),
        bits: array::from_fn(|i| pack_word(&filled[64 * i..64 * i + 64])),
    })
}

// These bytes, and zeros after them, so that every word is packed alike.
fn fill(bytes: &[u8]) -> [u8; 256]
    requires { length bytes.now ≤ 256 }
    ensures { result ≡ bytes.now ++ replicate (256 - length bytes.now) 0 }
{
    let mut filled = [0; 256];
    filled[..bytes.len()].copy_from_slice(bytes);
    filled
}

// 64 bits in as many bytes as a word, the first bit the highest.
fn pack_word(bytes: &[u8]) -> u64
    requires { length bytes.now ≡ 64 }
    ensures { are_bits bytes.now ≡ true → bits 64 result ≡ bytes.now }
{
    let mut word = 0;
    for eight in bytes.as_chunks().0 {
        word = (word << 8) | pack_byte(eight);
    }
    word
}

// Eight bits in as many bytes as a byte, by a product that moves the bit of each to its place in the highest byte.
fn pack_byte(eight: &[u8; 8]) -> u64
    ensures byte { result < 256 }
    ensures bits { are_bits eight.now ≡ true → bits 8 result ≡ eight.now }
{
    u64::from_le_bytes(*eight).wrapping_mul(0x8040_2010_0804_0201) >> 56
}
