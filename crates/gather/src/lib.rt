// The bytes of stored records that are hashed, from the words of their slots.
#![tactic(auto)]

ghost use Rattle.std.specs.Prelude.{◌≡◌, ◌+◌, ◌*◌, ◌≤◌, length, take, ◌≢◌, slice_index};
ghost use Rattle.model.specs.Records.{sized_bytes, pointer_bytes, merkle_bytes, record_bytes};
ghost use Rattle.path.specs.Packs.{path_in};
ghost use Rattle.slot.specs.Layout.{slot_words, bytes_in, pointer_in, rec_in, PointerPacks, Slot};
ghost use Rattle.writer.specs.Wrote.{Wrote};
ghost use Rattle.writer.specs.Written.{Written};
ghost use Rattle.gather.specs.Gathered.{Gathered};

use record::bits_into;
use writer::Writer;

mod element;

pub use element::element_out;

// The most bytes that a record has, without its key or path and with it.
pub const MERKLE_BYTES: usize = 1028;

pub const RECORD_BYTES: usize = 1095;

// The first `n` bytes in these words: eight at a time, and then what is left. Texts and paths lie in words that are lent, which say
// nothing of how many bytes or bits of them are used: that comes beside them, here and below.
fn bytes_into(words: &[u64], n: usize, w: &mut Writer)
    requires words { n ≤ 8 * length words.now }
    requires room { w.old.at + n ≤ length w.old.out.now }
    ensures end { w.new.at ≡ w.old.at + n }
    ensures wrote { Written w.old (take n (bytes_in words.now)) w.new }
{
    w.numbers(&words[..n / 8]);
    if n % 8 > 0 {
        let last = words[n / 8].to_le_bytes();
        w.bytes(&last[..n % 8]);
    }
}

// The first `n` bytes in these words, with their length.
fn sized_bytes_into(words: &[u64], n: usize, w: &mut Writer)
    requires words { n ≤ 8 * length words.now }
    requires room { w.old.at + (n + 2) ≤ length w.old.out.now }
    ensures end { w.new.at ≡ w.old.at + (n + 2) }
    ensures wrote { Written w.old (sized_bytes (take n (bytes_in words.now))) w.new }
{
    w.length(n);
    bytes_into(words, n, w);
}

// A path of `len` bits, with its length.
fn sized_path_into(len: usize, bits: &[u64], w: &mut Writer)
    requires bits { len ≤ 64 * length bits.now }
    requires room { w.old.at + (len + 2) ≤ length w.old.out.now }
    ensures end { w.new.at ≡ w.old.at + (len + 2) }
    ensures wrote { Written w.old (sized_bytes (path_in len bits.now)) w.new }
{
    w.length(len);
    bits_into(len, bits, w);
}

// A child pointer from its ten words.
fn pointer_into(pointer: &[u64], w: &mut Writer)
    requires ten { length pointer.now ≡ 10 }
    requires room { w.old.at + 292 ≤ length w.old.out.now }
    ensures { Gathered (PointerPacks pointer.now) w.old (pointer_bytes (pointer_in pointer.now)) 292 w.new }
{
    // kinds are numbers here and below: they stand in lent words
    if pointer[0] == 0 {
        w.byte(0);
        return;
    }
    // usize and u64 are as wide here, and no From stands between them
    let len = (pointer[1] as usize).min(256);
    w.byte(1);
    w.byte(u8::from(pointer[0] == 2));
    sized_path_into(len, &pointer[2..6], w);
    w.numbers(&pointer[6..10]);
}

// What of a node is hashed.
fn node_into(slot: &[u64], w: &mut Writer)
    requires size { length slot.now ≡ slot_words }
    requires room { w.old.at + 585 ≤ length w.old.out.now }
    ensures { Gathered (Slot slot.now × (slice_index slot.now 0 ≡ 0)) w.old (merkle_bytes (rec_in slot.now)) 585 w.new }
{
    w.byte(1);
    pointer_into(&slot[8..18], w);
    pointer_into(&slot[18..28], w);
}

// What of a data record is hashed.
fn data_into(slot: &[u64], w: &mut Writer)
    requires size { length slot.now ≡ slot_words }
    requires room { w.old.at + 1028 ≤ length w.old.out.now }
    ensures { Gathered (Slot slot.now × (slice_index slot.now 0 ≢ 0)) w.old (merkle_bytes (rec_in slot.now)) 1028 w.new }
{
    w.byte(0);
    if slot[0] != 2 {
        w.byte(0);
        return;
    }
    let len = (slot[17] as usize).min(1024);
    w.byte(1);
    sized_bytes_into(&slot[18..146], len, w);
}

// What the Merkle hash of the record in a slot is taken over: all but its key or path.
fn merkle_into(slot: &[u64], w: &mut Writer)
    requires size { length slot.now ≡ slot_words }
    requires room { w.old.at + 1028 ≤ length w.old.out.now }
    ensures { Gathered (Slot slot.now) w.old (merkle_bytes (rec_in slot.now)) 1028 w.new }
{
    if slot[0] == 0 {
        node_into(slot, w);
    } else {
        data_into(slot, w);
    }
}

// The record in a slot, with its key or path.
fn record_into(slot: &[u64], w: &mut Writer)
    requires size { length slot.now ≡ slot_words }
    requires room { w.old.at + 1095 ≤ length w.old.out.now }
    ensures { Gathered (Slot slot.now) w.old (record_bytes (rec_in slot.now)) 1095 w.new }
{
    if slot[0] == 0 {
        let len = (slot[2] as usize).min(256);
        w.byte(1);
        sized_path_into(len, &slot[3..7], w);
        node_into(slot, w);
    } else {
        let len = (slot[8] as usize).min(64);
        w.byte(0);
        sized_bytes_into(&slot[9..17], len, w);
        data_into(slot, w);
    }
}

// Each function that is called from outside writes from `at` on, and tells where the next byte goes: its callers hash what is before
// that, and have no other use for a writer.

// What the Merkle hash of the record in a slot is taken over.
pub fn merkle_out(slot: &[u64], out: &mut [u8], at: usize) -> usize
    requires size { length slot.now ≡ slot_words }
    requires room { at + 1028 ≤ length out.old }
    ensures end { result ≤ at + 1028 }
    ensures wrote { Slot slot.now → Wrote out.old at (merkle_bytes (rec_in slot.now)) out.new result }
{
    let mut w = Writer::new(out, at);
    merkle_into(slot, &mut w);
    w.at
}

// The record in a slot, with its key or path.
pub fn record_out(slot: &[u64], out: &mut [u8], at: usize) -> usize
    requires size { length slot.now ≡ slot_words }
    requires room { at + 1095 ≤ length out.old }
    ensures end { result ≤ at + 1095 }
    ensures wrote { Slot slot.now → Wrote out.old at (record_bytes (rec_in slot.now)) out.new result }
{
    let mut w = Writer::new(out, at);
    record_into(slot, &mut w);
    w.at
}
