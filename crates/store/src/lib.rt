// Records in lent memory: found, added, changed and removed. A record's place takes 192 words.
#![tactic(auto)]

ghost use Rattle.std.specs.Prelude.{◌≡◌, ℕ, ◌+◌, ◌-◌, ◌*◌, ◌%◌, ◌^◌, ◌<◌, ◌≤◌, true, false, List, [], ◌∷◌, length, IfSome, IsSome, Some, None, bit_or, bit_xor, nat_le, slice_index};
ghost use Rattle.model.specs.Records.{data_record, node, with_child, children_of, is_data, merkle_hash};
ghost use Rattle.model.specs.Verifier.{Stored, without, updated};
ghost use Rattle.path.specs.Packs.{path_in, Packs, Fit};
ghost use Rattle.path.specs.Sides.{side_number};
ghost use Rattle.slot.specs.Layout.{number_in, slot_key, slot_words, Slot};
ghost use Rattle.slot.specs.Meant.{child_meant, record_meant, IsNamed, IsShort};
ghost use Rattle.index.specs.Chains.{place_or};
ghost use Rattle.store.specs.Holding.{halves, home, mixed, slot_at, stored_at, Holds, Found, Walked, Added};

use index::{add, count_in, find_in, take_out};
use path::{Path, Side};
use slot::child::Child;
use slot::{Contents, SLOT_WORDS, write_record};

// Words are `u64` and places `usize`, between which no From stands; nor does one from `u128` to fewer bits.

// The two halves of a product, together: each bit of the word and of the salt moves about half of them.
fn mix(mixed: u64, word: u64, by: u64) -> u64
    ensures { result ≡ halves (bit_xor mixed word * by % 2 ^ 128) }
{
    let product = (mixed as u128 ^ word as u128).wrapping_mul(by as u128);
    (product % 0x1_0000_0000_0000_0000) as u64 ^ (product >> 64) as u64
}

// What the chain of a path is chosen by.
fn mixed_of(salt: u64, len: usize, bits: &[u64]) -> u64
    ensures mixed { result ≡ mixed (bit_or salt 1) (bit_xor salt len) bits.now }
    ensures fit { Fit bits.now }
{
    let mut mixed = salt ^ len as u64;
    for w in bits {
        mixed = mix(mixed, *w, salt | 1);
    }
    mixed
}

// The chain of a path.
fn home_of(n: usize, salt: u64, len: usize, bits: &[u64]) -> usize
    requires few { 2 ≤ n }
    ensures home { result ≡ home n salt len bits.now }
    ensures within { result < n - 1 }
    ensures fit { Fit bits.now }
{
    (mixed_of(salt, len, bits) % (n as u64 - 1)) as usize
}

// The work is done by functions over the words, for that words fit is known of those that are a parameter.

// The slot of the path of `len` bits in these words, where there are two places or more.
pub fn find_words(mem: &[u64], n: usize, salt: u64, len: usize, bits: &[u64]) -> Option<usize>
    requires few { 2 ≤ n }
    requires room { length mem.now ≡ 192 * n }
    requires four { length bits.now ≡ 4 }
    ensures within { IfSome result (λ i. i < n) }
    ensures walked { Packs len bits.now → Walked n salt mem.now len bits.now (place_or n result) }
    ensures found { Packs len bits.now → (xs : List Stored) → Holds n salt mem.now xs → Found n mem.now xs (path_in len bits.now) (place_or n result) }
{
    let b = home_of(n, salt, len, bits);
    find_in(&mem[0..2 * n], &mem[2 * n..192 * n], n, b, len, bits)
}

// The same with fewer. Nothing is stored then, for no chain but that of the free slots is there; but a walk of that may end at a slot.
fn find_in_few(mem: &[u64], n: usize, salt: u64, len: usize, bits: &[u64]) -> Option<usize>
    requires below { n < 2 }
    requires room { length mem.now ≡ 192 * n }
    requires four { length bits.now ≡ 4 }
    ensures within { IfSome result (λ i. i < n) }
    ensures walked { Packs len bits.now → Walked n salt mem.now len bits.now (place_or n result) }
{
    if n == 0 {
        return None;
    }
    if mixed_of(salt, len, bits) != 0 {
        return None;
    }
    find_in(&mem[0..2 * n], &mem[2 * n..192 * n], n, 0, len, bits)
}

// The slot that the next record goes into, if one is free.
fn first_free(mem: &[u64], n: usize) -> Option<usize>
    requires few { 2 ≤ n }
    requires room { length mem.now ≡ 192 * n }
    ensures within { IfSome result (λ i. i < n) }
    ensures full { (salt : ℕ) (xs : List Stored) → Holds n salt mem.now xs → nat_le n (place_or n result) ≡ nat_le n (length xs) }
    ensures free { IfSome result (λ i. slice_index mem.now (n - 1) ≡ i + 1) }
{
    let link = mem[n - 1] as usize;
    if link == 0 || link > n {
        return None;
    }
    Some(link - 1)
}

// How many records are stored.
fn stored(mem: &[u64], n: usize) -> usize
    requires few { 2 ≤ n }
    requires room { length mem.now ≡ 192 * n }
    ensures { (salt : ℕ) (xs : List Stored) → Holds n salt mem.now xs → result ≡ length xs }
{
    n - count_in(&mem[0..2 * n], n, n - 1)
}

// Removes the record in slot `i`, where a path was found.
fn take(mem: &mut [u64], n: usize, salt: u64, i: usize)
    requires few { 2 ≤ n }
    requires room { length mem.old ≡ 192 * n }
    requires within { i < n }
    ensures { (xs : List Stored) (k : ℕ) (ws : List ℕ) → Holds n salt mem.old xs → Walked n salt mem.old k ws i → Holds n salt mem.new (without (path_in k ws) xs) }
{
    let a = 2 * n + i * SLOT_WORDS;
    let b = home_of(n, salt, mem[a + 2] as usize, &mem[a + 3..a + 7]);
    take_out(&mut mem[0..2 * n], n, b, i);
    add(&mut mem[0..2 * n], n, n - 1, i);
}

// The first free slot, with a record written into it, goes into the chain of its path.
fn link_first(mem: &mut [u64], n: usize, salt: u64, i: usize)
    requires few { 2 ≤ n }
    requires room { length mem.old ≡ 192 * n }
    requires within { i < n }
    ensures { (xs : List Stored) → Holds n salt mem.old xs → slice_index mem.old (n - 1) ≡ i + 1 → Slot (slot_at n mem.old i) → Added n salt mem.new xs (stored_at n mem.old i) i }
{
    let a = 2 * n + i * SLOT_WORDS;
    let b = home_of(n, salt, mem[a + 2] as usize, &mem[a + 3..a + 7]);
    take_out(&mut mem[0..2 * n], n, n - 1, i);
    add(&mut mem[0..2 * n], n, b, i);
}

// Writes the child pointer on a side of the node in slot `i`, where a path was found.
fn write_child(mem: &mut [u64], n: usize, i: usize, side: Side, child: &Child)
    requires few { 2 ≤ n }
    requires room { length mem.old ≡ 192 * n }
    requires within { i < n }
    ensures stay { (salt : ℕ) (k : ℕ) (ws : List ℕ) (r : ℕ) → Walked n salt mem.old k ws r → Walked n salt mem.new k ws r }
    ensures stored { (salt : ℕ) (xs : List Stored) (k : ℕ) (ws : List ℕ) → Holds n salt mem.old xs → Walked n salt mem.old k ws i → is_data (stored_at n mem.old i).rec ≡ false → Holds n salt mem.new (updated (node (path_in k ws) (with_child (children_of (stored_at n mem.old i).rec) (side_number side) (child_meant child.now))) xs) }
{
    let a = 2 * n + i * SLOT_WORDS;
    slot::set_child(&mut mem[a..a + SLOT_WORDS], side, child);
}

// Writes the value of the data record in slot `i`, where a path was found.
fn write_value(mem: &mut [u64], n: usize, i: usize, value: &[u8])
    requires few { 2 ≤ n }
    requires room { length mem.old ≡ 192 * n }
    requires within { i < n }
    requires value { length value.now ≤ 1024 }
    ensures stay { (salt : ℕ) (k : ℕ) (ws : List ℕ) (r : ℕ) → Walked n salt mem.old k ws r → Walked n salt mem.new k ws r }
    ensures stored { (salt : ℕ) (xs : List Stored) (k : ℕ) (ws : List ℕ) → Holds n salt mem.old xs → Walked n salt mem.old k ws i → is_data (stored_at n mem.old i).rec ≡ true → Holds n salt mem.new (updated (data_record (slot_key (slot_at n mem.old i)) (Some value.now)) xs) }
{
    let a = 2 * n + i * SLOT_WORDS;
    slot::set_value(&mut mem[a..a + SLOT_WORDS], value);
}

// Keeps the hash of the record in slot `i`, where a path was found: it is known until the record is changed.
fn write_hash(mem: &mut [u64], n: usize, i: usize, hash: &[u64; 4])
    requires few { 2 ≤ n }
    requires room { length mem.old ≡ 192 * n }
    requires within { i < n }
    ensures stay { (salt : ℕ) (k : ℕ) (ws : List ℕ) (r : ℕ) → Walked n salt mem.old k ws r → Walked n salt mem.new k ws r }
    ensures stored { (salt : ℕ) (xs : List Stored) (k : ℕ) (ws : List ℕ) → Holds n salt mem.old xs → Walked n salt mem.old k ws i → number_in hash.now ≡ merkle_hash (stored_at n mem.old i).rec → Holds n salt mem.new xs }
{
    let a = 2 * n + i * SLOT_WORDS;
    slot::set_hash(&mut mem[a..a + SLOT_WORDS], hash);
}

// Nothing is stored yet, whatever the words were.
fn clear(mem: &mut [u64], n: usize)
    requires few { 2 ≤ n }
    requires room { length mem.old ≡ 192 * n }
    ensures { (salt : ℕ) → Holds n salt mem.new [] }
{
    mem[0..n].fill(0);
    for i in 0..n {
        add(&mut mem[0..2 * n], n, n - 1, i);
    }
}

// The words of a store, lent to be read: `places` records, in chains that the salt decides. Of as many chains as places, the last is
// that of the free slots: nothing is stored with fewer than two places, but a slot can be read where it has the only one.
#[derive(Clone, Copy)]
pub struct StoreRef<'a> {
    pub words: &'a [u64],
    pub places: usize,
    pub salt: u64,
    ghost room: { length words.now ≡ 192 * places },
}

impl<'a> StoreRef<'a> {
    pub fn new(words: &'a [u64], places: usize, salt: u64) -> StoreRef<'a>
        requires { length words.now ≡ 192 * places }
        ensures words { result.words.now ≡ words.now }
        ensures places { result.places ≡ places }
        ensures salt { result.salt ≡ salt }
    {
        StoreRef {
            words,
            places,
            salt,
        }
    }

    // The slot of the path of `len` bits in these words.
    pub fn find_words(self, len: usize, bits: &[u64]) -> Option<usize>
        requires { length bits.now ≡ 4 }
        ensures within { IfSome result (λ i. i < self.entry.places) }
        ensures walked { Packs len bits.now → Walked self.entry.places self.entry.salt self.entry.words.now len bits.now (place_or self.entry.places result) }
        ensures found { Packs len bits.now → (xs : List Stored) → Holds self.entry.places self.entry.salt self.entry.words.now xs → Found self.entry.places self.entry.words.now xs (path_in len bits.now) (place_or self.entry.places result) }
    {
        if self.places < 2 {
            return find_in_few(self.words, self.places, self.salt, len, bits);
        }
        find_words(self.words, self.places, self.salt, len, bits)
    }

    // The slot of a path.
    pub fn find(self, path: &Path) -> Option<usize>
        ensures within { IfSome result (λ i. i < self.entry.places) }
        ensures walked { Walked self.entry.places self.entry.salt self.entry.words.now path.now.len path.now.bits (place_or self.entry.places result) }
        ensures found { (xs : List Stored) → Holds self.entry.places self.entry.salt self.entry.words.now xs → Found self.entry.places self.entry.words.now xs (path_in path.now.len path.now.bits) (place_or self.entry.places result) }
    {
        self.find_words(path.len, &path.bits)
    }

    // The words of a slot.
    pub fn slot(self, i: usize) -> &'a [u64]
        requires { i < self.places }
        ensures words { result.now ≡ slot_at self.entry.places self.entry.words.now i }
        ensures size { length result.now ≡ slot_words }
    {
        let mem = self.words;
        let a = 2 * self.places + i * SLOT_WORDS;
        &mem[a..a + SLOT_WORDS]
    }

    // Is there no room for another record?
    pub fn is_full(self) -> bool
        ensures full { (salt : ℕ) (xs : List Stored) → Holds self.entry.places salt self.entry.words.now xs → result ≡ nat_le self.entry.places (length xs) }
        ensures below { self.entry.places < 2 → result ≡ true }
    {
        if self.places < 2 {
            return true;
        }
        first_free(self.words, self.places).is_none()
    }

    // How many records are stored.
    pub fn count(self) -> usize
        ensures count { (salt : ℕ) (xs : List Stored) → Holds self.entry.places salt self.entry.words.now xs → result ≡ length xs }
        ensures below { self.entry.places < 2 → result ≡ 0 }
    {
        if self.places < 2 {
            return 0;
        }
        stored(self.words, self.places)
    }
}

// The words of a store, lent to be written.
#[derive(Drop)]
pub struct Store<'a> {
    pub words: &'a mut [u64],
    pub places: usize,
    pub salt: u64,
    ghost few: { 2 ≤ places },
    ghost room: { length words.now ≡ 192 * places },
}

impl<'a> Store<'a> {
    ghost use Rattle.store.specs.Stores.{Frame};

    pub fn new(words: &'a mut [u64], places: usize, salt: u64) -> Store<'a>
        requires few { 2 ≤ places }
        requires room { length words.old ≡ 192 * places }
        ensures same { result.words.ghost_name ≡ words.entry.ghost_name }
        ensures words { result.words.now ≡ words.old }
        ensures places { result.places ≡ places }
        ensures salt { result.salt ≡ salt }
    {
        Store {
            words,
            places,
            salt,
        }
    }

    pub fn as_ref(&self) -> StoreRef<'_>
        ensures words { result.words.now ≡ self.now.words.now }
        ensures places { result.places ≡ self.now.places }
        ensures salt { result.salt ≡ self.now.salt }
    {
        StoreRef::new(self.words, self.places, self.salt)
    }

    // Nothing is stored yet, whatever the words were.
    pub fn open(&mut self)
        ensures same { self.new.words.ghost_name ≡ self.old.words.ghost_name }
        ensures frame { Frame self.old self.new }
        ensures none { (salt : ℕ) → Holds self.new.places salt self.new.words.now [] }
    {
        let n = self.places;
        clear(self.words, n);
    }

    // Removes the record in slot `i`, where a path was found.
    pub fn remove(&mut self, i: usize)
        requires { i < self.old.places }
        ensures same { self.new.words.ghost_name ≡ self.old.words.ghost_name }
        ensures frame { Frame self.old self.new }
        ensures without { (xs : List Stored) (k : ℕ) (ws : List ℕ) → Holds self.old.places self.old.salt self.old.words.now xs → Walked self.old.places self.old.salt self.old.words.now k ws i → Holds self.old.places self.old.salt self.new.words.now (without (path_in k ws) xs) }
    {
        let (n, salt) = (self.places, self.salt);
        take(self.words, n, salt, i);
    }

    // Adds a record at a path. Its slot; none if the store is full, and then nothing is written.
    pub fn add(&mut self, path: &Path, contents: Contents<'_>, by_merkle: bool) -> Option<usize>
        requires { IsShort contents }
        ensures same { self.new.words.ghost_name ≡ self.old.words.ghost_name }
        ensures frame { Frame self.old self.new }
        ensures within { IfSome result (λ i. i < self.old.places) }
        ensures unchanged { result ≡ None → self.new.words.now ≡ self.old.words.now }
        ensures full { (xs : List Stored) → Holds self.old.places self.old.salt self.old.words.now xs → nat_le self.old.places (place_or self.old.places result) ≡ nat_le self.old.places (length xs) }
        ensures stored { (xs : List Stored) → Holds self.old.places self.old.salt self.old.words.now xs → IsNamed path.now contents.entry → IfSome result (λ i. Added self.old.places self.old.salt self.new.words.now xs (record { rec = record_meant path.now contents.entry; by_merkle = by_merkle }) i) }
    {
        let (n, salt) = (self.places, self.salt);
        let mem = &mut *self.words;
        let i = first_free(mem, n)?;
        let a = 2 * n + i * SLOT_WORDS;
        write_record(&mut mem[a..a + SLOT_WORDS], path, contents, by_merkle);
        link_first(mem, n, salt, i);
        Some(i)
    }

    // Writes the child pointer on a side of the node in slot `i`, where a path was found.
    pub fn set_child(&mut self, i: usize, side: Side, child: &Child)
        requires { i < self.old.places }
        ensures same { self.new.words.ghost_name ≡ self.old.words.ghost_name }
        ensures frame { Frame self.old self.new }
        ensures stay { (salt : ℕ) (k : ℕ) (ws : List ℕ) (r : ℕ) → Walked self.old.places salt self.old.words.now k ws r → Walked self.old.places salt self.new.words.now k ws r }
        ensures stored { (salt : ℕ) (xs : List Stored) (k : ℕ) (ws : List ℕ) → Holds self.old.places salt self.old.words.now xs → Walked self.old.places salt self.old.words.now k ws i → is_data (stored_at self.old.places self.old.words.now i).rec ≡ false → Holds self.old.places salt self.new.words.now (updated (node (path_in k ws) (with_child (children_of (stored_at self.old.places self.old.words.now i).rec) (side_number side) (child_meant child.now))) xs) }
    {
        let n = self.places;
        write_child(self.words, n, i, side, child);
    }

    // Writes the value of the data record in slot `i`, where a path was found.
    pub fn set_value(&mut self, i: usize, value: &[u8])
        requires within { i < self.old.places }
        requires value { length value.now ≤ 1024 }
        ensures same { self.new.words.ghost_name ≡ self.old.words.ghost_name }
        ensures frame { Frame self.old self.new }
        ensures stay { (salt : ℕ) (k : ℕ) (ws : List ℕ) (r : ℕ) → Walked self.old.places salt self.old.words.now k ws r → Walked self.old.places salt self.new.words.now k ws r }
        ensures stored { (salt : ℕ) (xs : List Stored) (k : ℕ) (ws : List ℕ) → Holds self.old.places salt self.old.words.now xs → Walked self.old.places salt self.old.words.now k ws i → is_data (stored_at self.old.places self.old.words.now i).rec ≡ true → Holds self.old.places salt self.new.words.now (updated (data_record (slot_key (slot_at self.old.places self.old.words.now i)) (Some value.now)) xs) }
    {
        let n = self.places;
        write_value(self.words, n, i, value);
    }

    // Keeps the hash of the record in slot `i`, where a path was found: it is known until the record is changed.
    pub fn set_hash(&mut self, i: usize, hash: &[u64; 4])
        requires { i < self.old.places }
        ensures same { self.new.words.ghost_name ≡ self.old.words.ghost_name }
        ensures frame { Frame self.old self.new }
        ensures stay { (salt : ℕ) (k : ℕ) (ws : List ℕ) (r : ℕ) → Walked self.old.places salt self.old.words.now k ws r → Walked self.old.places salt self.new.words.now k ws r }
        ensures stored { (salt : ℕ) (xs : List Stored) (k : ℕ) (ws : List ℕ) → Holds self.old.places salt self.old.words.now xs → Walked self.old.places salt self.old.words.now k ws i → number_in hash.now ≡ merkle_hash (stored_at self.old.places self.old.words.now i).rec → Holds self.old.places salt self.new.words.now xs }
    {
        let n = self.places;
        write_hash(self.words, n, i, hash);
    }
}
