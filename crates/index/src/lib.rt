// Slots found by a hash of their paths, in chains. A link is a word: one more than a slot's number, or 0 for none.
// A chain is walked as long as there may be slots, and left by its label. Links are words and slots `usize`, between which no From
// stands. The words come apart from the slots' and for one call: a struct of words and number would be made anew for each.
#![tactic(auto)]

ghost use Rattle.std.specs.Prelude.{◌≡◌, ℕ, ◌+◌, ◌*◌, ◌<◌, ◌≤◌, Bool, true, false, List, [], ◌∷◌, ◌++◌, length, IfSome, slice_index, slice_index_or, slice_set};
ghost use Rattle.slot.specs.Layout.{slot_words};
ghost use Rattle.slot.specs.Finds.{position};
ghost use Rattle.index.specs.Chains.{Chain, Index, link_after, has, place_or, says, says_at};

use path::same_words;
use slot::SLOT_WORDS;

// Do the words of the slot say this path?
fn slot_says(slot: &[u64], len: usize, bits: &[u64]) -> bool
    requires { length slot.now ≡ slot_words }
    ensures { result ≡ says len bits.now slot.now }
{
    slot[2] == len as u64 && same_words(&slot[3..7], bits)
}

// The slot in bucket `b` that has this path.
pub fn find_in(
    index: &[u64],
    slots: &[u64],
    n: usize,
    b: usize,
    len: usize,
    bits: &[u64],
) -> Option<usize>
    requires bucket { b < n }
    requires index { 2 * n ≤ length index.now }
    requires slots { n * slot_words ≤ length slots.now }
    ensures within { IfSome result (λ i. i < n) }
    ensures found { (is : List ℕ) → Chain n index.now (slice_index index.now b) is → length is ≤ n → place_or n result ≡ slice_index_or is (position (says_at len bits.now slots.now) is) n }
{
    let mut link = index[b] as usize;
    let mut at = None;
    'chain: for k in 0..n {
        if link == 0 || link > n {
            break 'chain;
        }
        let i = link - 1;
        let a = i * SLOT_WORDS;
        if slot_says(&slots[a..a + SLOT_WORDS], len, bits) {
            at = Some(i);
            break 'chain;
        }
        link = index[n + i] as usize;
    }
    at
}

// How many slots bucket `b` has.
pub fn count_in(index: &[u64], n: usize, b: usize) -> usize
    requires bucket { b < n }
    requires index { 2 * n ≤ length index.now }
    ensures most { result ≤ n }
    ensures count { (is : List ℕ) → Chain n index.now (slice_index index.now b) is → length is ≤ n → result ≡ length is }
{
    let mut link = index[b] as usize;
    let mut count = 0;
    'chain: for k in 0..n {
        if link == 0 || link > n {
            break 'chain;
        }
        link = index[n + link - 1] as usize;
        count = k + 1;
    }
    count
}

// Slot `i` in front of bucket `b`.
fn push(index: &mut [u64], n: usize, b: usize, i: usize)
    requires bucket { b < n }
    requires slot { i < n }
    requires index { 2 * n ≤ length index.old }
    ensures { index.new ≡ slice_set (slice_set index.old (n + i) (slice_index index.old b)) b (i + 1) }
{
    index[n + i] = index[b];
    index[b] = i as u64 + 1;
}

// Slot `i` out of bucket `b`: what comes after it comes after what was before it.
fn unlink(index: &mut [u64], n: usize, b: usize, i: usize)
    requires bucket { b < n }
    requires slot { i < n }
    requires index { 2 * n ≤ length index.old }
    ensures { (xs ys : List ℕ) → Chain n index.old (slice_index index.old b) (xs ++ i ∷ ys) → has i xs ≡ false → length xs < n → index.new ≡ slice_set index.old (link_after n b xs) (slice_index index.old (n + i)) }
{
    let mut at = b;
    'chain: for k in 0..n {
        let link = index[at] as usize;
        if link == i + 1 || link == 0 || link > n {
            break 'chain;
        }
        at = n + link - 1;
    }
    index[at] = index[n + i];
}

// Slot `i`, which is in no bucket, into bucket `b`.
pub fn add(index: &mut [u64], n: usize, b: usize, i: usize)
    requires bucket { b < n }
    requires slot { i < n }
    requires index { 2 * n ≤ length index.old }
    ensures { (cs : List (List ℕ)) → Index n index.old cs → ((c : ℕ) → c < n → has i (slice_index_or cs c []) ≡ false) → Index n index.new (slice_set cs b (i ∷ slice_index_or cs b [])) }
{
    push(index, n, b, i);
}

// Slot `i`, which is in bucket `b`, out of it.
pub fn take_out(index: &mut [u64], n: usize, b: usize, i: usize)
    requires bucket { b < n }
    requires slot { i < n }
    requires index { 2 * n ≤ length index.old }
    ensures { (cs : List (List ℕ)) (xs ys : List ℕ) → Index n index.old cs → slice_index_or cs b [] ≡ xs ++ i ∷ ys → has i xs ≡ false → length xs < n → Index n index.new (slice_set cs b (xs ++ ys)) }
{
    unlink(index, n, b, i);
}
