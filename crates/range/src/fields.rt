// The fields of entries: each in range, or none.
ghost use Rattle.std.specs.Prelude.{◌≡◌, ◌<◌, true, ◌&&◌, length, is_some, IfSome};
ghost use Rattle.model.specs.Monitor.{modulus, good_node_path, good_pointer, good_key, good_value, good_timestamp};
ghost use Rattle.model.specs.Records.{present as there};
ghost use Rattle.path.specs.Times.{timestamp_of};
ghost use Rattle.range.specs.Packing.{bits_of, Short};
ghost use Rattle.reader.specs.Meaning.{pointer_of, value_of};
ghost use Rattle.slot.specs.Meant.{child_meant};
ghost use Rattle.slot.specs.Layout.{number_in};

use path::{Path, Timestamp};
use record::path_from_bits;
use slot::child::Child;
use wire::Pointer;

// A key's path has this many bits, and a node's fewer.
const KEY_BITS: usize = 256;

// How many bytes a key and a value may have.
const KEY_BYTES: usize = 64;

const VALUE_BYTES: usize = 1024;

// An epoch, and a counter and the one after it, fit 32 bits.
const MAX: u64 = 0xffff_ffff;

// A node's path with these bits.
pub fn node_path(bits: &[u8]) -> Option<Path>
    ensures some { is_some result ≡ good_node_path bits.now }
    ensures path { IfSome result (λ p. bits_of p ≡ bits.now) }
{
    if bits.len() >= KEY_BITS {
        return None;
    }
    path_from_bits(bits)
}

// A child pointer by value.
#[tactic(auto, using(crate::proofs::Ranged::hash_in), unfolding(model::specs::Monitor::good_pointer))]
pub fn child(pointer: Pointer<'_>) -> Option<Child>
    ensures some { is_some result ≡ good_pointer (pointer_of pointer.entry) }
    ensures child { IfSome result (λ c. child_meant c ≡ pointer_of pointer.entry) }
{
    match pointer {
        Pointer::Absent => Some(Child::Absent),
        Pointer::Present {
            path,
            hash,
            in_blum,
        } => Some(present(path_from_bits(path)?, &hash, in_blum)),
    }
}

// The pointer with these parts. That a hash fits is known of words that are lent and read one by one, and not of a case's array.
fn present(path: Path, hash: &[u64], in_blum: bool) -> Child
    requires { length hash.now ≡ 4 }
    ensures child { child_meant result ≡ there (bits_of path) (number_in hash.now) in_blum }
    ensures fits { number_in hash.now < modulus }
{
    Child::Present(path, [hash[0], hash[1], hash[2], hash[3]], in_blum)
}

pub fn is_good_timestamp(timestamp: Timestamp) -> bool
    ensures { result ≡ good_timestamp (timestamp_of timestamp) }
{
    timestamp.epoch <= MAX && timestamp.counter < MAX
}

// Whether a key and its value are short enough.
#[tactic(auto, unfolding(model::specs::Monitor::good_value))]
pub fn is_good_call(key: &[u8], value: Option<&[u8]>) -> bool
    ensures good { result ≡ (good_key key.now && good_value (value_of value.entry)) }
    ensures short { result ≡ true → Short key.now value.entry }
{
    key.len() <= KEY_BYTES && value.is_none_or(|bytes| bytes.len() <= VALUE_BYTES)
}
