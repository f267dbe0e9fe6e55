// A store is filled to its limit, emptied in many orders, and filled again.
use path::Path;
use record::path_from_bits;
use slot::Contents;
use slot::child::Child;
use std::process::Abort;
use std::test::Fail;
use store::Store;

const PLACES: usize = 8;

// Whatever the salt is: this one has many bits.
const SALT: u64 = 0x9e37_79b9_7f4a_7c15;

fn path(k: u8) -> Result<Path, Fail> {
    match path_from_bits(&[1, k / 8 % 2, k / 4 % 2, k / 2 % 2, k % 2]) {
        Some(p) => Ok(p),
        None => Err(Fail::new("these are bits")),
    }
}

fn is_stored(store: &Store<'_>, k: u8) -> Result<bool, Fail> {
    Ok(store.as_ref().find(&path(k)?).is_some())
}

fn insert(store: &mut Store<'_>, k: u8) -> Result<bool, Fail> {
    let contents = Contents::Node(Child::Absent, Child::Absent);
    Ok(store.add(&path(k)?, contents, true).is_some())
}

fn take(store: &mut Store<'_>, k: u8) -> Result<bool, Fail> {
    let Some(i) = store.as_ref().find(&path(k)?) else {
        return Ok(false);
    };
    if i < store.places {
        store.remove(i);
    }
    Ok(true)
}

fn fill(rt: &impl Abort, store: &mut Store<'_>) -> Result<(), Fail> {
    for k in 0..8u8 {
        assert!(rt; !store.as_ref().is_full());
        assert!(rt; insert(store, k)?);
        assert!(rt; is_stored(store, k)?);
        assert_eq!(rt; store.as_ref().count(), usize::from(k) + 1);
    }
    assert!(rt; store.as_ref().is_full());
    assert!(rt; !insert(store, 9)?);
    assert!(rt; !is_stored(store, 9)?);
    Ok(())
}

// The one that is taken out after `j` others, from `first` on in steps.
fn in_turn(first: u8, step: u8, j: u8) -> u8 {
    first.wrapping_add(step.wrapping_mul(j)) % 8
}

fn empty(rt: &impl Abort, store: &mut Store<'_>, first: u8, step: u8) -> Result<(), Fail> {
    for j in 0..8u8 {
        let k = in_turn(first, step, j);
        assert!(rt; take(store, k)?);
        assert!(rt; !take(store, k)?);
        assert_eq!(rt; store.as_ref().count(), 7 - usize::from(j));
        for later in j + 1..8 {
            assert!(rt; is_stored(store, in_turn(first, step, later))?);
        }
    }
    Ok(())
}

#[test]
fn every_order(rt: HostRuntime) -> Result<(), Fail> {
    let mut mem = [0xa5a5_a5a5_a5a5_a5a5u64; 1536];
    let mut store = Store::new(&mut mem, PLACES, SALT);
    store.open();
    assert_eq!(rt; store.as_ref().count(), 0);
    for first in 0..8u8 {
        for half in 0..4u8 {
            fill(&rt, &mut store)?;
            empty(&rt, &mut store, first, 2 * half + 1)?;
        }
    }
    Ok(())
}
