// The longest texts, and one byte more.
use std::alloc::{AllocError, Global};
use std::test::Fail;
use wire::{Contents, Entry, Event, Malformed, Pointer, Record, read};
use wire_write::{event_len, write_event};

const LONGEST_TEXT: usize = 65535;

const LONGEST_EVENT: usize = 262227;

fn text(heap: Global, len: usize) -> Result<Vec<u8>, AllocError> {
    vec![in heap; 1; len]
}

#[test]
fn longest_set(rt: HostRuntime) -> Result<(), Fail> {
    let long = text(rt.alloc(), LONGEST_TEXT)?;
    let entry = Entry::Set {
        key: &long,
        value: &long,
    };
    let mut to = text(rt.alloc(), LONGEST_EVENT)?;
    let n = write_event(&mut to, 1, entry).ok_or_else(|| Fail::new("it fits"))?;
    assert_eq!(rt; n, 9 + 2 * (2 + LONGEST_TEXT));
    assert!(rt; n <= to.len());
    let Ok(
        Event {
            verifier: 1,
            entry: Entry::Set { key, value },
        },
    ) = read(&to[..n])
    else {
        return Err(Fail::new("it is a Set"));
    };
    assert_eq!(rt; key.len(), LONGEST_TEXT);
    assert_eq!(rt; value.len(), LONGEST_TEXT);
    Ok(())
}

#[test]
fn longest_event(rt: HostRuntime) -> Result<(), Fail> {
    let long = text(rt.alloc(), LONGEST_TEXT)?;
    let child = Pointer::Present {
        path: &long,
        hash: [u64::MAX; 4],
        in_blum: true,
    };
    let record = Record {
        name: &long,
        contents: Contents::Children {
            left: child,
            right: child,
        },
        merkle_bytes: &long,
    };
    let entry = Entry::AddMerkle {
        record,
        above: &long,
    };
    assert_eq!(rt; event_len(u64::MAX, entry), Some(LONGEST_EVENT));
    let mut to = text(rt.alloc(), LONGEST_EVENT + 1)?;
    assert_eq!(rt; write_event(&mut to, u64::MAX, entry), Some(LONGEST_EVENT));
    assert!(rt; LONGEST_EVENT < to.len());
    assert!(rt;
        matches!(
            read(&to[0..LONGEST_EVENT]),
            Ok(Event {
                verifier: u64::MAX,
                entry: Entry::AddMerkle { .. }
            })
        )
    );
    assert_eq!(rt; read(&to).err(), Some(Malformed { at: LONGEST_EVENT }));
    Ok(())
}

#[test]
fn too_long(rt: HostRuntime) -> Result<(), Fail> {
    let long = text(rt.alloc(), LONGEST_TEXT + 1)?;
    let entry = Entry::Set {
        key: &[],
        value: &long,
    };
    let mut to = text(rt.alloc(), LONGEST_EVENT)?;
    assert_eq!(rt; write_event(&mut to, 0, entry), None);
    assert!(rt; to.iter().all(|b| *b == 1));
    assert_eq!(rt; event_len(0, entry), None);
    Ok(())
}
