// What may be asked of a store that is lent to be read, however few places it has.
use blum_conditions::link_to;
use conditions::{Candidate, Failure, may_add_merkle, may_evict_merkle};
use path::Path;
use reads::has_merkle_child;
use record::key_path;
use slot::Contents;
use slot::child::Child;
use std::process::Abort;
use store::{Store, StoreRef, find_words};

const NO_CHILDREN: Contents<'static> = Contents::Node(Child::Absent, Child::Absent);

// A key's record, as every record is at first.
fn at_first(path: Path) -> Candidate<'static> {
    Candidate {
        path,
        is_initial: true,
        of_node: false,
        merkle_bytes: &[],
    }
}

fn is_nowhere(rt: &impl Abort, store: StoreRef<'_>, path: &Path) {
    assert!(rt; store.find(path).is_none());
    assert!(rt; store.find_words(path.len, &path.bits).is_none());
}

// Nothing is stored here.
fn has_nothing(rt: &impl Abort, store: StoreRef<'_>) {
    let root = Path::root();
    let path = key_path(b"abc");
    is_nowhere(rt, store, &root);
    is_nowhere(rt, store, &path);
    assert!(rt; store.is_full());
    assert_eq!(rt; store.count(), 0);
    let evicted = may_evict_merkle(store, &path, &root);
    assert!(rt; matches!(evicted, Err(Failure::NotStored)));
    let added = may_add_merkle(store, at_first(path), &root);
    assert!(rt; matches!(added, Err(Failure::NoNodeAbove)));
    let linked = link_to(store, &path, &root);
    assert!(rt; matches!(linked, Err(Failure::NoNodeAbove)));
}

#[test]
fn no_place(rt: HostRuntime) {
    has_nothing(&rt, StoreRef::new(&[], 0, 7));
}

// The slot of the only place has the root, above a key; but it is in no chain, or in that of the free slots.
#[test]
fn one_in_no_chain(rt: HostRuntime) {
    let mut mem = [0; 192];
    let child = Child::Present(key_path(b"abc"), [5, 6, 7, 8], false);
    for first in [0, 1] {
        mem[0] = first;
        let contents = Contents::Node(child, Child::Absent);
        slot::write_record(&mut mem[2..], &Path::root(), contents, true);
        let store = StoreRef::new(&mem, 1, 7);
        has_nothing(&rt, store);
        assert!(rt; !has_merkle_child(store, 0));
    }
}

// With this salt a walk to the root begins at the chain of the free slots.
#[test]
fn one_that_is_free(rt: HostRuntime) {
    let mut mem = [0; 192];
    mem[0] = 1;
    slot::write_record(&mut mem[2..], &Path::root(), NO_CHILDREN, true);
    let store = StoreRef::new(&mem, 1, 0);
    assert_eq!(rt; store.find(&Path::root()), Some(0));
    assert_eq!(rt; store.count(), 0);
    is_nowhere(&rt, store, &key_path(b"abc"));
}

// The root is the node above a key: before the key is added, and after.
fn under_root(rt: &impl Abort, store: &mut Store<'_>) {
    let root = Path::root();
    let path = key_path(b"abc");
    let side = path.side_of(&root);
    store.open();
    is_nowhere(rt, store.as_ref(), &root);
    let added = store.add(&root, NO_CHILDREN, true);
    let i = added.unwrap_or(store.places);
    assert!(rt; i < store.places);
    assert_eq!(rt; store.as_ref().find_words(root.len, &root.bits), Some(i));
    let adding = may_add_merkle(store.as_ref(), at_first(path), &root);
    assert!(rt; adding.is_ok_and(|a| a.above == i && a.side == side));
    assert!(rt; link_to(store.as_ref(), &path, &root).is_err());
    store.set_child(i, side, &Child::Present(path, [5, 6, 7, 8], false));
    let added = store.add(&path, Contents::Data(b"abc", Some(b"v")), true);
    assert!(rt; added.is_some());
    let edge = may_evict_merkle(store.as_ref(), &path, &root);
    assert!(rt; edge.is_ok_and(|e| Some(e.slot) == added && e.above == i && e.side == side));
    let link = link_to(store.as_ref(), &path, &root);
    assert!(rt; link.is_ok_and(|l| l.above == i && l.side == side && l.hash == [5, 6, 7, 8]));
    let again = may_add_merkle(store.as_ref(), at_first(path), &root);
    assert!(rt; matches!(again, Err(Failure::AlreadyStored)));
}

#[test]
fn four_places(rt: HostRuntime) {
    let mut mem = [3u64; 768];
    under_root(&rt, &mut Store::new(&mut mem, 4, 7));
    let path = key_path(b"abc");
    let found = find_words(&mem, 4, 7, path.len, &path.bits);
    assert!(rt; found.is_some_and(|i| i < 4));
}
