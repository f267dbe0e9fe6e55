// Paths: from bytes and back, in their order, and of keys.
use path::{Path, Side};
use record::{bits_into, key_path, path_from_bits};
use std::test::Fail;
use writer::Writer;

fn path(bytes: &[u8]) -> Result<Path, Fail> {
    match path_from_bits(bytes) {
        Some(p) => Ok(p),
        None => Err(Fail::new("these are bits")),
    }
}

#[test]
fn refused(rt: HostRuntime) {
    assert!(rt; path_from_bits(&[0, 1, 2]).is_none());
    assert!(rt; path_from_bits(&[255]).is_none());
    assert!(rt; path_from_bits(&[1; 257]).is_none());
    assert!(rt; path_from_bits(&[1; 256]).is_some());
}

#[test]
fn packed(rt: HostRuntime) -> Result<(), Fail> {
    let p = path(&[1, 0, 1, 1, 0, 0, 0, 0, 1, 1])?;
    assert_eq!(rt; p.len, 10);
    let bits = p.bits;
    assert_eq!(rt; bits[0], 0xb0c0_0000_0000_0000);
    assert_eq!(rt; bits[1], 0);
    let all = path(&[1; 256])?;
    let bits = all.bits;
    assert_eq!(rt; bits[3], u64::MAX);
    Ok(())
}

#[test]
fn both_ways(rt: HostRuntime) -> Result<(), Fail> {
    let bytes = [1u8, 0, 0, 1, 1, 1, 0, 1, 0, 1, 1];
    let p = path(&bytes)?;
    let mut out = [7u8; 13];
    bits_into(11, &p.bits, &mut Writer::new(&mut out, 1));
    assert_eq!(rt; &out[1..12], bytes.as_slice());
    assert_eq!(rt; out[0], 7);
    assert_eq!(rt; out[12], 7);
    Ok(())
}

#[test]
fn below_and_before(rt: HostRuntime) -> Result<(), Fail> {
    let root = Path::root();
    let node = path(&[1, 0])?;
    let left = path(&[1, 0, 0, 1])?;
    let right = path(&[1, 0, 1])?;
    assert!(rt; left.is_below(&node));
    assert!(rt; node.is_below(&root));
    assert!(rt; !node.is_below(&node));
    assert!(rt; !right.is_below(&left));
    assert_eq!(rt; left.side_of(&node), Side::Left);
    assert_eq!(rt; right.side_of(&node), Side::Right);
    assert!(rt; node.is_before(&left));
    assert!(rt; left.is_before(&right));
    assert!(rt; !right.is_before(&right));
    assert!(rt; !node.is_same(&left));
    Ok(())
}

// The digest of "abc" begins with ba 78 16 bf.
#[test]
fn of_a_key(rt: HostRuntime) {
    let p = key_path(b"abc");
    assert_eq!(rt; p.len, 256);
    let bits = p.bits;
    assert_eq!(rt; bits[0], 0xba78_16bf_8f01_cfea);
    assert_eq!(rt; bits[3], 0xb410_ff61_f200_15ad);
}
