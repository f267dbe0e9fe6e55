// The words of one stored record, written.
#![tactic(auto)]

ghost use Rattle.std.specs.Prelude.{◌≡◌, ℕ, ◌+◌, ◌*◌, ◌<◌, ◌≤◌, Bool, true, false, List, length, IfSome, Some, None};
ghost use Rattle.std.specs.Option.{option_map};
ghost use Rattle.model.specs.Records.{data_record, node, with_child, children_of, is_data, key_path, merkle_hash};
ghost use Rattle.path.specs.Packs.{path_in};
ghost use Rattle.path.specs.Sides.{side_number};
ghost use Rattle.slot.specs.Layout.{slot_words, slot_path, slot_key, rec_in, stored_in, pointer_in, number_in, PointerPacks, Slot};
ghost use Rattle.slot.specs.Edits.{KeepsPath, Edited, Headed};
ghost use Rattle.slot.specs.Meant.{child_meant, child_words, record_meant, IsNamed, IsShort};

pub mod child;
mod contents;
mod text;

use child::Child;
pub use contents::{Contents, Record};
use path::{Path, Side};
pub use text::{same_bytes, write_bytes};

// How many words a slot has.
pub const SLOT_WORDS: usize = 190;

// Where the words of a slot are: what kind of record it is (0 a node, 1 a key without a value, 2 a key with one: numbers, for the
// words are lent), and whether it was added by Merkle; a key's length, and then the key; a value's likewise; the hash; and whether
// the record is unchanged since it had that hash.
pub const KIND: usize = 0;

pub const BY_MERKLE: usize = 1;

pub const KEY: usize = 8;

pub const VALUE: usize = 17;

pub const HASH: usize = 146;

pub const MARK: usize = 150;

// How many words a child pointer has. The first says what it is: 0 absent, 1 in the tree, 2 evicted by Blum; a number, as a kind is.
pub const POINTER_WORDS: usize = 10;

// Where a node's child pointer on a side is.
pub fn pointer_start(side: Side) -> usize
    ensures { result ≡ 8 + 10 * side_number side }
{
    match side {
        Side::Left => 8,
        Side::Right => 18,
    }
}

// Writes what kind of record it is, how it was added, and its path.
fn write_head(slot: &mut [u64], kind: u64, by_merkle: bool, path: &Path)
    requires size { length slot.old ≡ slot_words }
    ensures { Headed slot.new kind by_merkle path.now.len path.now.bits }
{
    slot[KIND] = kind;
    slot[BY_MERKLE] = u64::from(by_merkle);
    // usize and u64 are as wide here, and no From stands between them
    slot[2] = path.len as u64;
    slot[3..7].copy_from_slice(&path.bits);
}

// Writes a node into a slot, whatever was there.
fn write_node(slot: &mut [u64], path: &Path, left: &Child, right: &Child, by_merkle: bool)
    requires size { length slot.old ≡ slot_words }
    ensures slot { Slot slot.new }
    ensures stored { stored_in slot.new ≡ record { rec = node (path_in path.now.len path.now.bits) (record { left = child_meant left.now; right = child_meant right.now }); by_merkle = by_merkle } }
{
    write_head(slot, 0, by_merkle, path);
    write_child(&mut slot[8..18], left);
    write_child(&mut slot[18..28], right);
    slot[MARK] = 0;
}

// Writes a key without a value into a slot, whatever was there.
fn write_key(slot: &mut [u64], path: &Path, key: &[u8], by_merkle: bool)
    requires size { length slot.old ≡ slot_words }
    requires key { length key.now ≤ 64 }
    ensures slot { path_in path.now.len path.now.bits ≡ key_path key.now → Slot slot.new }
    ensures stored { stored_in slot.new ≡ record { rec = data_record key.now None; by_merkle = by_merkle } }
{
    write_head(slot, 1, by_merkle, path);
    slot[KEY] = key.len() as u64;
    let past = KEY + 1 + key.len().div_ceil(8);
    write_bytes(&mut slot[KEY + 1..past], key);
    slot[VALUE] = 0;
    slot[MARK] = 0;
}

// Writes a key, with its value if it has one, into a slot, whatever was there.
fn write_data(slot: &mut [u64], path: &Path, key: &[u8], value: Option<&[u8]>, by_merkle: bool)
    requires size { length slot.old ≡ slot_words }
    requires key { length key.now ≤ 64 }
    requires value { IfSome value (λ v. length v.now ≤ 1024) }
    ensures { path_in path.now.len path.now.bits ≡ key_path key.now → Slot slot.new × (stored_in slot.new ≡ record { rec = data_record key.now (option_map (λ v. v.now) value.entry); by_merkle = by_merkle }) }
{
    write_key(slot, path, key, by_merkle);
    if let Some(v) = value {
        set_value(slot, v);
    }
}

// Writes a record into a slot, whatever was there.
pub fn write_record(slot: &mut [u64], path: &Path, contents: Contents<'_>, by_merkle: bool)
    requires size { length slot.old ≡ slot_words }
    requires short { IsShort contents }
    ensures { IsNamed path.now contents.entry → Slot slot.new × (stored_in slot.new ≡ record { rec = record_meant path.now contents.entry; by_merkle = by_merkle }) }
{
    match contents {
        Contents::Node(left, right) => write_node(slot, path, &left, &right, by_merkle),
        Contents::Data(key, value) => write_data(slot, path, key, value, by_merkle),
    }
}

// A child pointer into its ten words.
fn write_child(s: &mut [u64], child: &Child)
    requires { length s.old ≡ 10 }
    ensures words { s.new ≡ child_words child.now }
    ensures meant { pointer_in (child_words child.now) ≡ child_meant child.now }
    ensures packs { PointerPacks (child_words child.now) }
{
    match child {
        Child::Absent => {
            s.copy_from_slice(&[0; 10]);
        }
        Child::Present(path, hash, by_blum) => {
            s[0] = 1 + u64::from(*by_blum);
            s[1] = path.len as u64;
            s[2..6].copy_from_slice(&path.bits);
            s[6..10].copy_from_slice(hash);
        }
    }
}

// Writes the child pointer on a side of the node in a slot.
pub fn set_child(slot: &mut [u64], side: Side, child: &Child)
    requires size { length slot.old ≡ slot_words }
    ensures kept { KeepsPath slot.old slot.new }
    ensures edited { Slot slot.old → is_data (rec_in slot.old) ≡ false → Edited slot.old slot.new (node (slot_path slot.old) (with_child (children_of (rec_in slot.old)) (side_number side) (child_meant child.now))) }
{
    let a = pointer_start(side);
    write_child(&mut slot[a..a + POINTER_WORDS], child);
    slot[MARK] = 0; // the hash was of the node before
}

// Writes the value of the data record in a slot.
pub fn set_value(slot: &mut [u64], value: &[u8])
    requires size { length slot.old ≡ slot_words }
    requires value { length value.now ≤ 1024 }
    ensures kept { KeepsPath slot.old slot.new }
    ensures edited { Slot slot.old → is_data (rec_in slot.old) ≡ true → Edited slot.old slot.new (data_record (slot_key slot.old) (Some value.now)) }
{
    slot[KIND] = 2;
    slot[VALUE] = value.len() as u64;
    let past = VALUE + 1 + value.len().div_ceil(8);
    write_bytes(&mut slot[VALUE + 1..past], value);
    slot[MARK] = 0; // the hash was of the value before
}

// Writes the hash of the record in a slot, and marks the record as unchanged since.
pub fn set_hash(slot: &mut [u64], hash: &[u64; 4])
    requires size { length slot.old ≡ slot_words }
    ensures kept { KeepsPath slot.old slot.new }
    ensures edited { Slot slot.old → number_in hash.now ≡ merkle_hash (rec_in slot.old) → Edited slot.old slot.new (rec_in slot.old) }
{
    slot[HASH..MARK].copy_from_slice(hash);
    slot[MARK] = 1;
}
