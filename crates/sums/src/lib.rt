// The sums of an epoch: 256 bits in four lent words, the low one first, that wrap; and the hashes that are added to them.
#![tactic(auto)]

ghost use Rattle.std.specs.Prelude.{◌≡◌, ◌+◌, ◌%◌, ◌≤◌, ◌++◌, length, take, ◌==◌};
ghost use Rattle.model.specs.Monitor.{modulus};
ghost use Rattle.model.specs.Records.{hash_of};
ghost use Rattle.slot.specs.Parts.{part};
ghost use Rattle.slot.specs.Layout.{bytes_in, number_in};

use sha256::digest;
use writer::Writer;

// Adds a hash to a sum. Each line hands what is carried to the next: a loop would want a variable for it, and be no plainer.
pub fn add(sum: &mut [u64], hash: &[u64; 4])
    requires { length sum.old ≡ 4 }
    ensures { number_in sum.new ≡ (number_in sum.old + number_in hash.now) % modulus }
{
    let (a, carry) = sum[0].carrying_add(hash[0], false);
    let (b, carry) = sum[1].carrying_add(hash[1], carry);
    let (c, carry) = sum[2].carrying_add(hash[2], carry);
    let (d, _) = sum[3].carrying_add(hash[3], carry);
    sum.copy_from_slice(&[a, b, c, d]);
}

// Are the two sums of an epoch equal, of what was added and, after it, of what was evicted?
pub fn agree(sums: &[u64]) -> bool
    requires { length sums.now ≡ 8 }
    ensures { result ≡ (number_in (part 0 4 sums.now) == number_in (part 4 4 sums.now)) }
{
    sums[..4] == sums[4..]
}

// How many bytes the secret has, an element at most, and both together.
pub const SECRET_BYTES: usize = 32;

const ELEMENT_BYTES: usize = 1112;

pub const MESSAGE_BYTES: usize = SECRET_BYTES + ELEMENT_BYTES;

// Writes the bytes in the secret's four words.
pub fn secret_out(secret: &[u64], out: &mut [u8])
    requires four { length secret.now ≡ 4 }
    requires room { 32 ≤ length out.old }
    ensures { take 32 out.new ≡ bytes_in secret.now }
{
    Writer::new(out, 0).numbers(secret);
}

// The hash of an element, keyed with the secret; zeros, and no Option, for what is too long to be one: no entry in range has such.
pub fn element_hash(secret: &[u64], element: &[u8]) -> [u64; 4]
    requires { length secret.now ≡ 4 }
    ensures { length element.now ≤ 1112 → number_in result ≡ hash_of (bytes_in secret.now ++ element.now) }
{
    if element.len() > ELEMENT_BYTES {
        return [0; 4];
    }
    // no heap: room for the longest, and where this one ends
    let mut message = [0; MESSAGE_BYTES];
    let mut w = Writer::new(&mut message, 0);
    w.numbers(secret);
    w.bytes(element);
    digest(&message[..SECRET_BYTES + element.len()])
}
