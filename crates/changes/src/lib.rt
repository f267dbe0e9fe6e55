// What entries that are right write into the store.
#![tactic(auto)]

ghost use Rattle.std.specs.Prelude.{◌≡◌, ℕ, ◌<◌, ◌≤◌, Bool, true, false, List, ◌∷◌, length, IfSome, Option};
ghost use Rattle.model.specs.Records.{is_data, children_of, node, with_child, present, merkle_hash};
ghost use Rattle.model.specs.Verifier.{Stored, without, updated};
ghost use Rattle.path.specs.Packs.{path_in};
ghost use Rattle.path.specs.Sides.{side_number};
ghost use Rattle.slot.specs.Layout.{Slot, number_in};
ghost use Rattle.slot.specs.Meant.{record_meant, IsNamed, IsShort};
ghost use Rattle.store.specs.Holding.{slot_at, stored_at, Holds, Walked, Added};
ghost use Rattle.store.specs.Stores.{slot_of, stored_of, Frame};
ghost use Rattle.conditions.specs.Ways.{after_link, contents_after, OwnHash};

use conditions::{Adding, Edge, Way};
use gather::{MERKLE_BYTES, merkle_out};
use path::{Path, Side};
use reads::known_hash;
use sha256::digest;
use slot::Contents;
use slot::child::Child;
use store::{Store, StoreRef};

// The Merkle hash of the record in slot `i`: the one beside it, if the record hasn't changed since.
fn merkle_hash_of(store: StoreRef<'_>, i: usize) -> [u64; 4]
    requires { i < store.places }
    ensures { Slot (slot_of store.entry i) → number_in result ≡ merkle_hash (stored_of store.entry i).rec }
{
    if let Some(hash) = known_hash(store, i) {
        return hash;
    }
    // no heap: room for the longest, and where this one ends
    let mut bytes = [0u8; MERKLE_BYTES];
    let end = merkle_out(store.slot(i), &mut bytes, 0);
    digest(&bytes[0..end])
}

// EvictMerkle: the node above knows the record's hash, and the record leaves.
pub fn evict_merkle(store: &mut Store<'_>, path: &Path, edge: Edge)
    requires slot { edge.slot < store.old.places }
    requires above { edge.above < store.old.places }
    ensures same { store.new.words.ghost_name ≡ store.old.words.ghost_name }
    ensures frame { Frame store.old store.new }
    ensures evicted { (xs : List Stored) (l : ℕ) (us : List ℕ) → Holds store.old.places store.old.salt store.old.words.now xs → Slot (slot_at store.old.places store.old.words.now edge.slot) → Walked store.old.places store.old.salt store.old.words.now path.now.len path.now.bits edge.slot → Walked store.old.places store.old.salt store.old.words.now l us edge.above → is_data (stored_at store.old.places store.old.words.now edge.above).rec ≡ false → Holds store.old.places store.old.salt store.new.words.now (without (path_in path.now.len path.now.bits) (updated (node (path_in l us) (with_child (children_of (stored_at store.old.places store.old.words.now edge.above).rec) (side_number edge.side) (present (path_in path.now.len path.now.bits) (merkle_hash (stored_at store.old.places store.old.words.now edge.slot).rec) false))) xs)) }
{
    let hash = merkle_hash_of(store.as_ref(), edge.slot);
    store.set_child(edge.above, edge.side, &Child::Present(*path, hash, false));
    store.remove(edge.slot);
}

// The node above knows the record, with hash 0, unless it knew it before.
fn link(store: &mut Store<'_>, path: &Path, adding: &Adding)
    requires { adding.now.above < store.old.places }
    ensures same { store.new.words.ghost_name ≡ store.old.words.ghost_name }
    ensures frame { Frame store.old store.new }
    ensures linked { (xs : List Stored) (l : ℕ) (us : List ℕ) → Holds store.old.places store.old.salt store.old.words.now xs → Walked store.old.places store.old.salt store.old.words.now l us adding.now.above → is_data (stored_at store.old.places store.old.words.now adding.now.above).rec ≡ false → Holds store.old.places store.old.salt store.new.words.now (after_link adding.now.way (node (path_in l us) (with_child (children_of (stored_at store.old.places store.old.words.now adding.now.above).rec) (side_number adding.now.side) (present (path_in path.now.len path.now.bits) 0 false))) xs) }
{
    if let Way::Again(_) = adding.way {
        return;
    }
    store.set_child(
        adding.above,
        adding.side,
        &Child::Present(*path, [0; 4], false),
    );
}

// A record that came with its hash keeps it.
fn keep_hash(store: &mut Store<'_>, i: usize, way: &Way)
    requires { i < store.old.places }
    ensures same { store.new.words.ghost_name ≡ store.old.words.ghost_name }
    ensures frame { Frame store.old store.new }
    ensures kept { (xs : List Stored) (x : Stored) → Added store.old.places store.old.salt store.old.words.now xs x i → OwnHash way.now (merkle_hash x.rec) → Holds store.old.places store.old.salt store.new.words.now (x ∷ xs) }
{
    if let Way::Again(hash) = way {
        store.set_hash(i, hash);
    }
}

// What is stored of a record: what was known where a node is put between is its child.
fn with_next<'a>(path: &Path, contents: Contents<'a>, way: &Way) -> Contents<'a>
    requires { IsShort contents }
    ensures after { record_meant path.now result ≡ contents_after way.now path.now contents.entry }
    ensures named { IsNamed path.now contents.entry → IsNamed path.now result }
    ensures short { IsShort result }
{
    let Contents::Node(left, right) = contents else {
        return contents;
    };
    let Way::Between(next, hash, by_blum) = way else {
        return contents;
    };
    let child = Child::Present(*next, *hash, *by_blum);
    match next.side_of(path) {
        Side::Left => Contents::Node(child, right),
        Side::Right => Contents::Node(left, child),
    }
}

// AddMerkle.
pub fn add_merkle(store: &mut Store<'_>, path: &Path, contents: Contents<'_>, adding: &Adding)
    requires short { IsShort contents }
    requires above { adding.now.above < store.old.places }
    ensures same { store.new.words.ghost_name ≡ store.old.words.ghost_name }
    ensures frame { Frame store.old store.new }
    ensures added { (xs : List Stored) (l : ℕ) (us : List ℕ) → Holds store.old.places store.old.salt store.old.words.now xs → length xs < store.old.places → IsNamed path.now contents.entry → Walked store.old.places store.old.salt store.old.words.now l us adding.now.above → is_data (stored_at store.old.places store.old.words.now adding.now.above).rec ≡ false → OwnHash adding.now.way (merkle_hash (record_meant path.now contents.entry)) → Holds store.old.places store.old.salt store.new.words.now (record { rec = contents_after adding.now.way path.now contents.entry; by_merkle = true } ∷ after_link adding.now.way (node (path_in l us) (with_child (children_of (stored_at store.old.places store.old.words.now adding.now.above).rec) (side_number adding.now.side) (present (path_in path.now.len path.now.bits) 0 false))) xs) }
{
    link(store, path, adding);
    if let Some(i) = store.add(path, with_next(path, contents, &adding.way), true) {
        keep_hash(store, i, &adding.way);
    }
}
