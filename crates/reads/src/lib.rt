// What is read of stored records.
#![tactic(auto)]

ghost use Rattle.std.specs.Prelude.{◌≡◌, ℕ, ◌<◌, ◌≤◌, Bool, false, not, List, length, is_some, IfSome, ◌==◌, slice_index};
ghost use Rattle.std.specs.Option.{option_map};
ghost use Rattle.model.specs.Records.{is_data, children_of, child_on, merkle_hash};
ghost use Rattle.model.specs.Verifier.{Stored, has_key, has_merkle_child, has_value, points_at_merkle};
ghost use Rattle.path.specs.Packs.{path_in, Packs};
ghost use Rattle.path.specs.Sides.{side_number};
ghost use Rattle.slot.specs.Layout.{Slot, PointerPacks, pointer_in, number_in};
ghost use Rattle.slot.specs.Meant.{child_meant};
ghost use Rattle.store.specs.Stores.{slot_of, stored_of, Contains};
ghost use Rattle.reads.specs.Points.{points};

use path::{Path, Side, path_from_words, same_words};
use slot::child::Child;
use slot::{BY_MERKLE, HASH, KEY, KIND, MARK, POINTER_WORDS, VALUE, pointer_start, same_bytes};
use store::StoreRef;

// Is the record in slot `i` a node?
pub fn is_node(store: StoreRef<'_>, i: usize) -> bool
    requires { i < store.places }
    ensures { result ≡ not (is_data (stored_of store.entry i).rec) }
{
    store.slot(i)[KIND] == 0
}

// Was the record in slot `i` added by Merkle?
pub fn is_by_merkle(store: StoreRef<'_>, i: usize) -> bool
    requires { i < store.places }
    ensures { result ≡ (stored_of store.entry i).by_merkle }
{
    store.slot(i)[BY_MERKLE] == 1
}

// The hash of the record in slot `i`, if it is known.
pub fn known_hash(store: StoreRef<'_>, i: usize) -> Option<[u64; 4]>
    requires { i < store.places }
    ensures known { is_some result ≡ (slice_index (slot_of store.entry i) 150 == 1) }
    ensures hash { Slot (slot_of store.entry i) → IfSome result (λ h. number_in h ≡ merkle_hash (stored_of store.entry i).rec) }
{
    let slot = store.slot(i);
    if slot[MARK] != 1 {
        return None;
    }
    let mut hash = [0u64; 4];
    hash.copy_from_slice(&slot[HASH..MARK]);
    Some(hash)
}

// The child pointer in ten words; absent where no path is in them.
fn child_in(s: &[u64]) -> Child
    requires ten { length s.now ≡ 10 }
    ensures { PointerPacks s.now → child_meant result ≡ pointer_in s.now }
{
    if s[0] == 0 {
        return Child::Absent;
    }
    // words are `u64` and lengths `usize`, between which no From stands; here and below
    let Some(path) = path_from_words(s[1] as usize, &s[2..6]) else {
        return Child::Absent;
    };
    let mut hash = [0u64; 4];
    hash.copy_from_slice(&s[6..10]);
    Child::Present(path, hash, s[0] == 2)
}

// The child pointer on a side of the node in slot `i`.
pub fn child_at(store: StoreRef<'_>, i: usize, side: Side) -> Child
    requires { i < store.places }
    ensures { Slot (slot_of store.entry i) → is_data (stored_of store.entry i).rec ≡ false → child_meant result ≡ child_on (children_of (stored_of store.entry i).rec) (side_number side) }
{
    let a = pointer_start(side);
    child_in(&store.slot(i)[a..a + POINTER_WORDS])
}

// Do the ten words of a pointer point at this path?
fn pointer_says(s: &[u64], len: usize, bits: &[u64]) -> bool
    requires ten { length s.now ≡ 10 }
    requires four { length bits.now ≡ 4 }
    ensures { PointerPacks s.now → Packs len bits.now → result ≡ points (path_in len bits.now) (pointer_in s.now) }
{
    if s[0] == 0 {
        return false;
    }
    if s[1] != len as u64 {
        return false;
    }
    same_words(&s[2..6], bits)
}

// Does the node in slot `i` point at this path on a side?
pub fn points_at(store: StoreRef<'_>, i: usize, side: Side, path: &Path) -> bool
    requires { i < store.places }
    ensures { Slot (slot_of store.entry i) → is_data (stored_of store.entry i).rec ≡ false → result ≡ points (path_in path.now.len path.now.bits) (child_on (children_of (stored_of store.entry i).rec) (side_number side)) }
{
    let a = pointer_start(side);
    pointer_says(&store.slot(i)[a..a + POINTER_WORDS], path.len, &path.bits)
}

// Is what the ten words of a pointer point at stored, added by Merkle?
fn points_at_merkle(store: StoreRef<'_>, s: &[u64]) -> bool
    requires { length s.now ≡ 10 }
    ensures { (xs : List Stored) → Contains store.entry xs → PointerPacks s.now → result ≡ points_at_merkle xs (pointer_in s.now) }
{
    if s[0] == 0 {
        return false;
    }
    let Some(i) = store.find_words(s[1] as usize, &s[2..6]) else {
        return false;
    };
    is_by_merkle(store, i)
}

// Does the record in slot `i` point at something that is stored, added by Merkle?
pub fn has_merkle_child(store: StoreRef<'_>, i: usize) -> bool
    requires { i < store.places }
    ensures { (xs : List Stored) → Contains store.entry xs → Slot (slot_of store.entry i) → result ≡ has_merkle_child xs (stored_of store.entry i).rec }
{
    let slot = store.slot(i);
    if slot[KIND] != 0 {
        return false;
    }
    if points_at_merkle(store, &slot[8..18]) {
        return true;
    }
    points_at_merkle(store, &slot[18..28])
}

// Is the record in slot `i` this key's?
pub fn has_key(store: StoreRef<'_>, i: usize, key: &[u8]) -> bool
    requires { i < store.places }
    ensures { Slot (slot_of store.entry i) → result ≡ has_key (stored_of store.entry i).rec key.now }
{
    let slot = store.slot(i);
    if slot[KIND] == 0 {
        return false;
    }
    let len = (slot[KEY] as usize).min(64);
    same_bytes(&slot[KEY + 1..VALUE], len, key)
}

// Is the record in slot `i` a key's, with this value, or without one?
pub fn has_value(store: StoreRef<'_>, i: usize, value: Option<&[u8]>) -> bool
    requires { i < store.places }
    ensures { Slot (slot_of store.entry i) → result ≡ has_value (stored_of store.entry i).rec (option_map (λ v. v.now) value.entry) }
{
    let slot = store.slot(i);
    let kind = slot[KIND];
    let Some(v) = value else {
        return kind != 0 && kind != 2;
    };
    if kind != 2 {
        return false;
    }
    let len = (slot[VALUE] as usize).min(1024);
    same_bytes(&slot[VALUE + 1..HASH], len, v)
}
