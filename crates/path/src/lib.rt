// Packed paths, 64 bits to a word, the high bit first; and timestamps.
#![tactic(auto)]

ghost use Rattle.std.specs.Prelude.{◌≡◌, ℕ, ◌-◌, ◌*◌, ◌<◌, ◌≤◌, true, List, length, is_some, IfSome, slice_index, IsTrue, ◌↔◌};
ghost use Rattle.model.specs.Records.{below, side, same_bytes, less_bytes};
ghost use Rattle.path.specs.Packs.{word_bits, path_in, Packs};
ghost use Rattle.path.specs.Sides.{side_number};
ghost use Rattle.std.specs.List.{All};

mod packed;
mod side;
mod times;

pub use packed::Path;
pub use side::Side;
pub use times::Timestamp;

// Are these the same words? A function, for its contract says it of the bytes that a path has.
pub fn same_words(a: &[u64], b: &[u64]) -> bool
    ensures { result ≡ same_bytes a.now b.now }
{
    a == b
}

// Are these the same path?
pub fn same_paths(len: usize, bits: &[u64], q_len: usize, q_bits: &[u64]) -> bool
    requires { length bits.now ≡ length q_bits.now }
    ensures { Packs len bits.now → Packs q_len q_bits.now → result ≡ same_bytes (path_in len bits.now) (path_in q_len q_bits.now) }
{
    len == q_len && same_words(bits, q_bits)
}

// The bit at `i`.
pub fn bit_of(bits: &[u64], i: usize) -> u64
    requires { i < 64 * length bits.now }
    ensures { result ≡ slice_index (word_bits bits.now) i }
{
    (bits[i / 64] >> (63 - i % 64)) & 1
}

// Is the path of `len` bits below the one of `q_len` bits?
pub fn below_words(len: usize, bits: &[u64], q_len: usize, q_bits: &[u64]) -> bool
    requires { length bits.now ≡ length q_bits.now }
    ensures { len ≤ 64 * length bits.now → result ≡ below (path_in len bits.now) (path_in q_len q_bits.now) }
{
    let whole = q_len / 64;
    if len <= q_len {
        return false;
    }
    if whole >= bits.len() {
        return false;
    }
    if bits[..whole] != q_bits[..whole] {
        return false;
    }
    // 64 less the bits that are left, in two shifts: one by 64 would not do
    let past = 63 - q_len % 64;
    (bits[whole] >> past) >> 1 == (q_bits[whole] >> past) >> 1
}

// On which side of a path of `q_len` bits is this path?
pub fn side_words(len: usize, bits: &[u64], q_len: usize) -> Side
    ensures { len ≤ 64 * length bits.now → (q : List ℕ) → length q ≡ q_len → side_number result ≡ side (path_in len bits.now) q }
{
    if q_len >= len {
        return Side::Left;
    }
    if q_len / 64 >= bits.len() {
        return Side::Left;
    }
    match bit_of(bits, q_len) {
        0 => Side::Left,
        _ => Side::Right,
    }
}

// Is the path of `len` bits before the one of `q_len` bits?
pub fn less_words(len: usize, bits: &[u64], q_len: usize, q_bits: &[u64]) -> bool
    requires { length bits.now ≡ length q_bits.now }
    ensures { Packs len bits.now → Packs q_len q_bits.now → result ≡ less_bytes (path_in len bits.now) (path_in q_len q_bits.now) }
{
    (bits, len) < (q_bits, q_len)
}

// Is no bit of these words set past the first `len`?
fn none_past(len: usize, bits: &[u64]) -> bool
    ensures packs { result ≡ true → Packs len bits.now }
    ensures all { Packs len bits.now → result ≡ true }
{
    let whole = len / 64;
    if whole >= bits.len() {
        return whole == bits.len() && len % 64 == 0;
    }
    if bits[whole] << (len % 64) != 0 {
        return false;
    }
    are_zero(&bits[whole + 1..])
}

fn are_zero(words: &[u64]) -> bool
    ensures { IsTrue result ↔ All (λ w. w ≡ 0) words.now }
{
    words.iter().all(|word| *word == 0)
}

// The path of `len` bits in four words, if no bit is set past it.
pub fn path_from_words(len: usize, bits: &[u64]) -> Option<Path>
    ensures path { IfSome result (λ p. (p.len ≡ len) × (p.bits ≡ bits.now)) }
    ensures some { length bits.now ≡ 4 → Packs len bits.now → is_some result ≡ true }
{
    let bits = *bits.as_array()?;
    if !none_past(len, &bits) {
        return None;
    }
    Some(Path { len, bits })
}
