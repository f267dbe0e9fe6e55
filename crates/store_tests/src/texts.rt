// Keys and values of lengths about whole words, compared with those that are stored; and paths in words.
ghost use Rattle.std.specs.Prelude.{◌<◌, ◌≤◌};

use path::path_from_words;
use reads::{has_key, has_value};
use record::key_path;
use slot::Contents;
use std::process::Abort;
use store::{Store, StoreRef};

const PLACES: usize = 4;

const SALT: u64 = 7;

// Bytes of which one is another.
fn bytes_but(j: usize) -> [u8; 1025]
    requires { j < 1025 }
{
    let mut bytes = [0xa5u8; 1025];
    bytes[j] = 0xa4;
    bytes
}

// Is the key in slot `i` these bytes, and not one byte more?
fn is_key(store: StoreRef<'_>, i: usize, len: usize) -> bool
    requires within { i < store.places }
    requires len { len ≤ 64 }
{
    let bytes = [0xa5u8; 1025];
    has_key(store, i, &bytes[0..len]) && !has_key(store, i, &bytes[0..len + 1])
}

fn is_value(store: StoreRef<'_>, i: usize, value: &[u8]) -> bool
    requires { i < store.places }
{
    has_value(store, i, Some(value))
}

// Is the value in slot `i` none that differs in one byte?
fn is_no_other(store: StoreRef<'_>, i: usize, len: usize) -> bool
    requires within { i < store.places }
    requires len { len ≤ 1024 }
{
    (0..len).all(|j| !is_value(store, i, &bytes_but(j)[0..len]))
}

fn compared(rt: &impl Abort, store: &mut Store<'_>, key_len: usize, value_len: usize)
    requires key { key_len ≤ 64 }
    requires value { value_len ≤ 1024 }
{
    let bytes = [0xa5u8; 1025];
    let key = &bytes[0..key_len];
    let value = &bytes[0..value_len];
    store.open();
    let added = store.add(&key_path(key), Contents::Data(key, Some(value)), true);
    let i = added.unwrap_or(PLACES);
    assert!(rt; i < store.places);
    assert!(rt; is_key(store.as_ref(), i, key_len));
    assert!(rt; is_value(store.as_ref(), i, value));
    assert!(rt; !is_value(store.as_ref(), i, &bytes[0..value_len + 1]));
    assert!(rt; is_no_other(store.as_ref(), i, value_len));
}

#[test]
fn keys_and_values(rt: HostRuntime) {
    let mut mem = [1u64; 768];
    let mut store = Store::new(&mut mem, PLACES, SALT);
    compared(&rt, &mut store, 0, 0);
    compared(&rt, &mut store, 7, 1);
    compared(&rt, &mut store, 8, 1024);
    compared(&rt, &mut store, 9, 9);
    compared(&rt, &mut store, 64, 1023);
}

#[test]
fn no_value(rt: HostRuntime) {
    let mut mem = [1u64; 768];
    let mut store = Store::new(&mut mem, PLACES, SALT);
    store.open();
    let added = store.add(&key_path(b"k"), Contents::Data(b"k", None), true);
    let i = added.unwrap_or(PLACES);
    assert!(rt; i < store.places);
    assert!(rt; has_value(store.as_ref(), i, None));
    assert!(rt; !has_value(store.as_ref(), i, Some(b"")));
    store.set_value(i, b"");
    assert!(rt; i < store.places);
    assert!(rt; has_value(store.as_ref(), i, Some(b"")));
    assert!(rt; !has_value(store.as_ref(), i, None));
}

#[test]
fn paths_in_words(rt: HostRuntime) {
    let bits = [1, 2, 3, 1 << 62];
    assert!(rt; path_from_words(256, &bits).is_some());
    assert!(rt; path_from_words(194, &bits).is_some());
    assert!(rt; path_from_words(193, &bits).is_none());
    assert!(rt; path_from_words(192, &bits).is_none());
    assert!(rt; path_from_words(0, &bits).is_none());
    assert!(rt; path_from_words(257, &bits).is_none());
    assert!(rt; path_from_words(128, &[1, 2, 0, 0]).is_some());
    assert!(rt; path_from_words(0, &[0, 0, 0]).is_none());
}
