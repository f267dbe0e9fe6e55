// SHA-256 (FIPS 180-4, whose sections are named) of any slice of bytes, with no allocation.
#![tactic(auto)]

ghost use Rattle.std.specs.Prelude.{◌≡◌, ℕ, ◌+◌, ◌-◌, ◌*◌, ◌/◌, ◌%◌, ◌<◌, ◌≤◌, List, ◌∷◌, ◌++◌, map, length, take, drop, replicate};
ghost use Rattle.std.specs.List.{flat_map};
ghost use Rattle.model.specs.Records.{hash_of};
ghost use Rattle.model.specs.Sha256.{be_words, block_count, compress, extend_schedule, rotr, sha256};
ghost use Rattle.sha256.specs.Limbs.{Limbs, limbs_bytes, limbs_number};
ghost use Rattle.sha256.specs.Parts.{add_states, add_words, big_sigma_0, big_sigma_1, bit_length_bytes, ch, compress_block, final_state, initial_state, limb_of, maj, padding, round, round_constants, rounds_on, small_sigma_0, small_sigma_1};
ghost use Rattle.sha256.specs.View.{state_of, sums_of, words_of};

use std::array;
use std::simd::prelude::*;

// Section 4.2.2: a table, as the standard gives it.
const ROUND_CONSTANTS: [u32; 64] = [
    0x428a2f98, 0x71374491, 0xb5c0fbcf, 0xe9b5dba5, 0x3956c25b, 0x59f111f1, 0x923f82a4, 0xab1c5ed5,
    0xd807aa98, 0x12835b01, 0x243185be, 0x550c7dc3, 0x72be5d74, 0x80deb1fe, 0x9bdc06a7, 0xc19bf174,
    0xe49b69c1, 0xefbe4786, 0x0fc19dc6, 0x240ca1cc, 0x2de92c6f, 0x4a7484aa, 0x5cb0a9dc, 0x76f988da,
    0x983e5152, 0xa831c66d, 0xb00327c8, 0xbf597fc7, 0xc6e00bf3, 0xd5a79147, 0x06ca6351, 0x14292967,
    0x27b70a85, 0x2e1b2138, 0x4d2c6dfc, 0x53380d13, 0x650a7354, 0x766a0abb, 0x81c2c92e, 0x92722c85,
    0xa2bfe8a1, 0xa81a664b, 0xc24b8b70, 0xc76c51a3, 0xd192e819, 0xd6990624, 0xf40e3585, 0x106aa070,
    0x19a4c116, 0x1e376c08, 0x2748774c, 0x34b0bcb5, 0x391c0cb3, 0x4ed8aa4a, 0x5b9cca4f, 0x682e6ff3,
    0x748f82ee, 0x78a5636f, 0x84c87814, 0x8cc70208, 0x90befffa, 0xa4506ceb, 0xbef9a3f7, 0xc67178f2,
];

// Section 5.3.3.
const INITIAL_STATE: HashState = HashState {
    a: 0x6a09e667,
    b: 0xbb67ae85,
    c: 0x3c6ef372,
    d: 0xa54ff53a,
    e: 0x510e527f,
    f: 0x9b05688c,
    g: 0x1f83d9ab,
    h: 0x5be0cd19,
};

// The standard's working variables, under its names, which an array would lose.
#[derive(Clone, Copy)]
struct HashState {
    a: u32,
    b: u32,
    c: u32,
    d: u32,
    e: u32,
    f: u32,
    g: u32,
    h: u32,
}

// Sixteen words of the message schedule.
#[derive(Clone, Copy)]
struct Words {
    a: u32x4,
    b: u32x4,
    c: u32x4,
    d: u32x4,
}

// Sixteen words of the message schedule, each with its round's constant added.
#[derive(Clone, Copy)]
struct Sums {
    a: [u32; 4],
    b: [u32; 4],
    c: [u32; 4],
    d: [u32; 4],
}

// What the next sixteen rounds start from.
#[derive(Drop)]
struct Progress {
    state: HashState,
    words: Words,
    sums: Sums,
}

// The digest of a message: its 32 bytes in four limbs of eight, the first byte the lowest.
pub fn digest(message: &[u8]) -> [u64; 4]
    ensures bytes { limbs_bytes result ≡ sha256 message.now }
    ensures number { limbs_number result ≡ hash_of message.now }
    ensures limbs { Limbs 4 result }
{
    let s = hash(message);
    [
        limb(s.a, s.b),
        limb(s.c, s.d),
        limb(s.e, s.f),
        limb(s.g, s.h),
    ]
}

// How many blocks are hashed for a message of `len` bytes: the padding takes nine bytes at least.
pub fn block_count(len: usize) -> usize
    ensures { (m : List ℕ) → length m ≡ len → result ≡ block_count m }
{
    len / 64 + (len % 64 + 9).div_ceil(64)
}

// A digest for C, whose interface wants a struct.
#[repr(C)]
pub struct Sha256Digest {
    pub limbs: [u64; 4],
}

// `digest` for C; crate `sha256_c` exports it.
pub fn sha256_digest(message: &[u8], out: &mut Sha256Digest)
    ensures { limbs_bytes out.new.limbs ≡ sha256 message.now }
{
    out.limbs = digest(message);
}

fn hash(message: &[u8]) -> HashState
    ensures { state_of result ≡ final_state message.now }
{
    let (blocks, tail) = message.as_chunks();
    let mut s = INITIAL_STATE;
    for block in blocks {
        s = compress_block(s, block);
    }
    compress_tail(s, tail, message.len())
}

// The last block or two, of a message of `n` bytes that ends in `tail`.
fn compress_tail(s: HashState, tail: &[u8], n: usize) -> HashState
    requires { length tail.now ≡ n % 64 }
    ensures { state_of result ≡ compress (length (tail.now ++ padding n) / 64) (state_of s) (tail.now ++ padding n) }
{
    let block = start_padding(tail);
    if tail.len() < 56 {
        compress_block(s, &end_padding(block, n))
    } else {
        compress_block(compress_block(s, &block), &end_padding([0; 64], n))
    }
}

// Section 5.1.1: what is left of the message, a one bit, and zeros.
fn start_padding(tail: &[u8]) -> [u8; 64]
    requires { length tail.now < 64 }
    ensures { result ≡ tail.now ++ (128 ∷ replicate (63 - length tail.now) 0) }
{
    let mut block = [0; 64];
    block[..tail.len()].copy_from_slice(tail);
    block[tail.len()] = 128;
    block
}

// Section 5.1.1: the length of the message in bits, in the last eight bytes of a block.
fn end_padding(mut block: [u8; 64], n: usize) -> [u8; 64]
    ensures { result ≡ take 56 block ++ bit_length_bytes n }
{
    block[56..].copy_from_slice(&(n << 3).to_be_bytes());
    block
}

// Section 6.2.2. The schedule is made sixteen words ahead, between the rounds: vectors and numbers wait for different parts of the processor.
fn compress_block(start: HashState, block: &[u8; 64]) -> HashState
    ensures { state_of result ≡ compress_block (state_of start) block.now }
{
    let mut words = block_words(block);
    let mut sums = add_constants(words, 0);
    let mut state = start;
    // counted, for the next sixteen words are those of the rounds from 16 * j on
    for j in 1..4 {
        let next = rounds_and_schedule(state, words, &sums, 16 * j);
        state = next.state;
        words = next.words;
        sums = next.sums;
    }
    add_hash_states(start, sixteen_rounds(state, &sums))
}

fn add_hash_states(s: HashState, t: HashState) -> HashState
    ensures { state_of result ≡ add_states (state_of s) (state_of t) }
{
    HashState {
        a: s.a.wrapping_add(t.a),
        b: s.b.wrapping_add(t.b),
        c: s.c.wrapping_add(t.c),
        d: s.d.wrapping_add(t.d),
        e: s.e.wrapping_add(t.e),
        f: s.f.wrapping_add(t.f),
        g: s.g.wrapping_add(t.g),
        h: s.h.wrapping_add(t.h),
    }
}

fn block_words(block: &[u8; 64]) -> Words
    ensures words { words_of result ≡ be_words block.now }
    ensures count { length (words_of result) ≡ 16 }
{
    let words = block.as_chunks().0;
    Words {
        a: four_words(&words[..4]),
        b: four_words(&words[4..8]),
        c: four_words(&words[8..12]),
        d: four_words(&words[12..]),
    }
}

fn four_words(words: &[[u8; 4]]) -> u32x4
    requires { length words.now ≡ 4 }
    ensures { result ≡ flat_map be_words words.now }
{
    u32x4::from_array(array::from_fn(|i| u32::from_be_bytes(words[i])))
}

// Sixteen rounds over `sums`, and the sixteen words that follow `w`, with the constants from `t` on.
fn rounds_and_schedule(s: HashState, w: Words, sums: &Sums, t: usize) -> Progress
    requires { t + 16 ≤ 64 }
    ensures state { state_of result.state ≡ rounds_on (state_of s) (sums_of sums.now) }
    ensures words { extend_schedule 16 (words_of w) ≡ words_of w ++ words_of result.words }
    ensures count { length (words_of result.words) ≡ 16 }
    ensures sums { sums_of result.sums ≡ add_words (drop t round_constants) (words_of result.words) }
{
    let a = next_words(w.a, w.b, w.c, w.d);
    let s = four_rounds(s, &sums.a);
    let b = next_words(w.b, w.c, w.d, a);
    let s = four_rounds(s, &sums.b);
    let c = next_words(w.c, w.d, a, b);
    let s = four_rounds(s, &sums.c);
    let d = next_words(w.d, a, b, c);
    let s = four_rounds(s, &sums.d);
    let words = Words { a, b, c, d };
    Progress {
        state: s,
        words,
        sums: add_constants(words, t),
    }
}

fn sixteen_rounds(s: HashState, sums: &Sums) -> HashState
    ensures { state_of result ≡ rounds_on (state_of s) (sums_of sums.now) }
{
    let s = four_rounds(s, &sums.a);
    let s = four_rounds(s, &sums.b);
    let s = four_rounds(s, &sums.c);
    four_rounds(s, &sums.d)
}

// Each round is a call of its own, and no turn of a loop, so that it is inlined with its registers fixed.
#[inline(always)]
fn four_rounds(s: HashState, sums: &[u32; 4]) -> HashState
    ensures { state_of result ≡ rounds_on (state_of s) sums.now }
{
    let s = round_on(s, sums[0]);
    let s = round_on(s, sums[1]);
    let s = round_on(s, sums[2]);
    round_on(s, sums[3])
}

fn add_constants(w: Words, t: usize) -> Sums
    requires { t + 16 ≤ 64 }
    ensures { sums_of result ≡ add_words (drop t round_constants) (words_of w) }
{
    Sums {
        a: add_four(w.a, t),
        b: add_four(w.b, t + 4),
        c: add_four(w.c, t + 8),
        d: add_four(w.d, t + 12),
    }
}

fn add_four(w: u32x4, t: usize) -> [u32; 4]
    requires { t + 4 ≤ 64 }
    ensures { result ≡ add_words (drop t round_constants) w }
{
    (u32x4::from_slice(&ROUND_CONSTANTS[t..]) + w).to_array()
}

// The four words of the schedule that follow sixteen; the last two of them take the first two.
fn next_words(a: u32x4, b: u32x4, c: u32x4, d: u32x4) -> u32x4
    ensures words { extend_schedule 4 (a ++ (b ++ (c ++ d))) ≡ (a ++ (b ++ (c ++ d))) ++ result }
    ensures count { length (b ++ (c ++ (d ++ result))) ≡ 16 }
{
    let base = c.shuffle(d, [1, 2, 3, 4]) + (small_sigma_0(a.shuffle(b, [1, 2, 3, 4])) + a);
    let low = small_sigma_1(d.swizzle([2, 3, 2, 3])) + base;
    let high = small_sigma_1(low.swizzle([0, 1, 0, 1])) + base;
    low.shuffle(high, [0, 1, 6, 7])
}

// One round, over a word of the schedule with the round's constant added.
fn round_on(s: HashState, x: u32) -> HashState
    ensures { state_of result ≡ round (state_of s) x }
{
    let t1 = s
        .h
        .wrapping_add(big_sigma_1(s.e))
        .wrapping_add(choose(s.e, s.f, s.g).wrapping_add(x));
    let t2 = big_sigma_0(s.a).wrapping_add(majority(s.a, s.b, s.c));
    HashState {
        a: t1.wrapping_add(t2),
        b: s.a,
        c: s.b,
        d: s.c,
        e: s.d.wrapping_add(t1),
        f: s.e,
        g: s.f,
        h: s.g,
    }
}

// Section 4.1.2: each of these functions is one of the standard's, under its name.
fn choose(x: u32, y: u32, z: u32) -> u32
    ensures { result ≡ ch x y z }
{
    (x & y) ^ (!x & z)
}

fn majority(x: u32, y: u32, z: u32) -> u32
    ensures { result ≡ maj x y z }
{
    (x & y) ^ (x & z) ^ (y & z)
}

fn big_sigma_0(x: u32) -> u32
    ensures { result ≡ big_sigma_0 x }
{
    x.rotate_right(2) ^ x.rotate_right(13) ^ x.rotate_right(22)
}

fn big_sigma_1(x: u32) -> u32
    ensures { result ≡ big_sigma_1 x }
{
    x.rotate_right(6) ^ x.rotate_right(11) ^ x.rotate_right(25)
}

fn small_sigma_0(x: u32x4) -> u32x4
    ensures { result ≡ map small_sigma_0 x }
{
    rotate_lanes(x, 7) ^ rotate_lanes(x, 18) ^ (x >> u32x4::splat(3))
}

fn small_sigma_1(x: u32x4) -> u32x4
    ensures { result ≡ map small_sigma_1 x }
{
    rotate_lanes(x, 17) ^ rotate_lanes(x, 19) ^ (x >> u32x4::splat(10))
}

fn rotate_lanes(x: u32x4, n: u32) -> u32x4
    requires { (0 < n) × (n < 32) }
    ensures { result ≡ map (rotr n) x }
{
    (x >> u32x4::splat(n)) | (x << u32x4::splat(32 - n))
}

// Eight bytes of the digest, from two words whose bytes stand high to low.
fn limb(x: u32, y: u32) -> u64
    ensures { result ≡ limb_of x y }
{
    (u64::from(y.swap_bytes()) << 32) | u64::from(x.swap_bytes())
}

#[cfg(test)]
mod tests {
    use super::*;
    use std::process::Abort;

    fn check_digest(rt: &impl Abort, message: &[u8], expected: [u64; 4]) {
        assert_eq!(rt; digest(message), expected);
    }

    // The examples that NIST publishes with the standard, and no bytes.
    #[test]
    fn standard_examples(rt: HostRuntime) {
        check_digest(
            &rt,
            b"",
            [
                0x141cfc9842c4b0e3,
                0x24b96f99c8f4fb9a,
                0x4c939b64e441ae27,
                0x55b852781b9995a4,
            ],
        );
        check_digest(
            &rt,
            b"abc",
            [
                0xeacf018fbf1678ba,
                0x2322ae5dde404141,
                0x9c7a1796a36103b0,
                0xad1500f261ff10b4,
            ],
        );
        check_digest(
            &rt,
            b"abcdbcdecdefdefgefghfghighijhijkijkljklmklmnlmnomnopnopq",
            [
                0xb83806d2616a8d24,
                0x39603e0c9326c0e5,
                0x6721ff6459e43ca3,
                0xc106db19d4edecf6,
            ],
        );
    }

    #[test]
    fn many_blocks(rt: HostRuntime) {
        check_digest(
            &rt,
            &[b'a'; 1000],
            [
                0xd9e8632de4eced41,
                0x1c2e93a69b5a51bf,
                0x6434d1a5f5c9cb20,
                0xa37e73b9b15ddb5a,
            ],
        );
    }

    #[test]
    fn counts_blocks(rt: HostRuntime) {
        assert_eq!(rt; block_count(0), 1);
        assert_eq!(rt; block_count(55), 1);
        assert_eq!(rt; block_count(56), 2);
        assert_eq!(rt; block_count(64), 2);
        assert_eq!(rt; block_count(usize::MAX), 0x400000000000001);
    }
}
