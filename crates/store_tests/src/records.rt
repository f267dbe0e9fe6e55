// Values, hashes and child pointers, written and read.
ghost use Rattle.std.specs.Prelude.{◌<◌};

use gather::{merkle_out, record_out};
use path::{Path, Side};
use reads::{child_at, has_merkle_child, is_by_merkle, is_node, known_hash, points_at};
use record::key_path;
use slot::Contents;
use slot::child::Child;
use std::process::Abort;
use store::{Store, StoreRef};

const PLACES: usize = 4;

const SALT: u64 = 7;

// The bytes of the record in a slot: those that its hash is taken over, and all.
fn bytes_are(rt: &impl Abort, store: StoreRef<'_>, i: usize, merkle: &[u8], all: &[u8]) {
    assert!(rt; i < store.places);
    let mut out = [0u8; 1095];
    let n = merkle_out(store.slot(i), &mut out, 0);
    assert!(rt; n <= 1095);
    assert_eq!(rt; &out[0..n], merkle);
    let m = record_out(store.slot(i), &mut out, 0);
    assert!(rt; m <= 1095);
    assert_eq!(rt; &out[0..m], all);
}

fn key_and_value(rt: &impl Abort, store: &mut Store<'_>) {
    store.open();
    let path = key_path(b"abc");
    let added = store.add(&path, Contents::Data(b"abc", Some(b"v")), false);
    let i = added.unwrap_or(PLACES);
    assert!(rt; i < store.places);
    assert!(rt; !is_node(store.as_ref(), i));
    assert!(rt; !is_by_merkle(store.as_ref(), i));
    assert!(rt; known_hash(store.as_ref(), i).is_none());
    bytes_are(
        rt,
        store.as_ref(),
        i,
        b"\x00\x01\x01\x00v",
        b"\x00\x03\x00abc\x00\x01\x01\x00v",
    );
    store.set_hash(i, &[1, 2, 3, 4]);
    assert!(rt; i < store.places);
    assert!(rt; known_hash(store.as_ref(), i).is_some());
    store.set_value(i, b"ninebytes");
    assert!(rt; i < store.places);
    assert!(rt; known_hash(store.as_ref(), i).is_none());
    assert_eq!(rt; store.as_ref().find(&path), Some(i));
    bytes_are(
        rt,
        store.as_ref(),
        i,
        b"\x00\x01\x09\x00ninebytes",
        b"\x00\x03\x00abc\x00\x01\x09\x00ninebytes",
    );
}

// Was this child written on that side?
fn is_child(store: StoreRef<'_>, i: usize, side: Side, path: &Path) -> bool
    requires { i < store.places }
{
    match child_at(store, i, side) {
        Child::Present(p, hash, by_blum) => p.is_same(path) && hash == [5, 6, 7, 8] && !by_blum,
        Child::Absent => false,
    }
}

fn other(side: Side) -> Side {
    match side {
        Side::Left => Side::Right,
        Side::Right => Side::Left,
    }
}

fn node_and_child(rt: &impl Abort, store: &mut Store<'_>) {
    store.open();
    let root = Path::root();
    let path = key_path(b"abc");
    let side = path.side_of(&root);
    let added = store.add(&root, Contents::Node(Child::Absent, Child::Absent), true);
    let i = added.unwrap_or(PLACES);
    assert!(rt; i < store.places);
    bytes_are(rt, store.as_ref(), i, &[1, 0, 0], &[1, 0, 0, 1, 0, 0]);
    assert!(rt; !points_at(store.as_ref(), i, side, &path));
    store.set_child(i, side, &Child::Present(path, [5, 6, 7, 8], false));
    assert!(rt; i < store.places);
    assert!(rt; points_at(store.as_ref(), i, side, &path));
    assert!(rt; !points_at(store.as_ref(), i, other(side), &path));
    assert!(rt; is_child(store.as_ref(), i, side, &path));
    assert!(rt; !is_child(store.as_ref(), i, other(side), &path));
    assert!(rt; !has_merkle_child(store.as_ref(), i));
    let added = store.add(&path, Contents::Data(b"abc", Some(b"v")), true);
    assert!(rt; added.is_some());
    assert!(rt; i < store.places);
    assert!(rt; has_merkle_child(store.as_ref(), i));
}

#[test]
fn values(rt: HostRuntime) {
    let mut mem = [1u64; 768];
    key_and_value(&rt, &mut Store::new(&mut mem, PLACES, SALT));
}

#[test]
fn children(rt: HostRuntime) {
    let mut mem = [2u64; 768];
    node_and_child(&rt, &mut Store::new(&mut mem, PLACES, SALT));
}

// A slot is read where it has the only place.
#[test]
fn one_place(rt: HostRuntime) {
    let mut mem = [0; 192];
    let no_children = Contents::Node(Child::Absent, Child::Absent);
    slot::write_record(&mut mem[2..], &Path::root(), no_children, true);
    let store = StoreRef::new(&mem, 1, SALT);
    assert!(rt; is_node(store, 0));
    assert!(rt; is_by_merkle(store, 0));
    assert!(rt; known_hash(store, 0).is_none());
    assert!(rt; !points_at(store, 0, Side::Left, &Path::root()));
    assert!(rt; matches!(child_at(store, 0, Side::Right), Child::Absent));
}
