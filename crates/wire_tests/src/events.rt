// One event of each kind: its fields; the same bytes written again; cut short, with a byte too many, with a tag that is none.
use crate::samples;
use std::process::Abort;
use std::test::Fail;
use wire::{Contents, Entry, Event, Pointer, read};
use wire_write::write_event;

const ROOM: usize = 64;

const UNTOUCHED: u8 = 0xa5;

// Where the bytes are malformed.
fn place(bytes: &[u8]) -> Option<usize> {
    read(bytes).err().map(|malformed| malformed.at)
}

fn written_again(rt: &impl Abort, bytes: &[u8]) -> Result<(), Fail> {
    let Ok(Event { verifier, entry }) = read(bytes) else {
        return Err(Fail::new("it is an event"));
    };
    let mut to = [UNTOUCHED; ROOM];
    let n = write_event(&mut to, verifier, entry).ok_or_else(|| Fail::new("there is room"))?;
    assert!(rt; n <= ROOM);
    assert_eq!(rt; &to[..n], bytes);
    assert!(rt; to[n..].iter().all(|b| *b == UNTOUCHED));
    assert!(rt; n > 0);
    let mut short = [UNTOUCHED; ROOM];
    assert_eq!(rt; write_event(&mut short[..n - 1], verifier, entry), None);
    assert_eq!(rt; short, [UNTOUCHED; ROOM]);
    Ok(())
}

// A field that is cut short is malformed at the end.
fn cut_short(rt: &impl Abort, bytes: &[u8]) {
    // lengths, and no items: each front of the bytes
    for n in 0..bytes.len() {
        assert_eq!(rt; place(&bytes[..n]), Some(n));
    }
}

fn one_too_many(rt: &impl Abort, bytes: &[u8]) {
    let n = bytes.len();
    let mut longer = [0u8; ROOM];
    assert!(rt; n < ROOM);
    longer[..n].copy_from_slice(bytes);
    assert_eq!(rt; place(&longer[..n + 1]), Some(n));
}

fn sample(rt: &impl Abort, bytes: &[u8]) -> Result<(), Fail> {
    written_again(rt, bytes)?;
    cut_short(rt, bytes);
    one_too_many(rt, bytes);
    Ok(())
}

#[test]
fn add_merkle(rt: HostRuntime) -> Result<(), Fail> {
    sample(&rt, &samples::ADD_MERKLE)?;
    let Ok(
        Event {
            verifier: 0,
            entry: Entry::AddMerkle { record, above },
        },
    ) = read(&samples::ADD_MERKLE)
    else {
        return Err(Fail::new("it is an AddMerkle of verifier 0"));
    };
    assert_eq!(rt; record.name, [0u8, 1].as_slice());
    assert_eq!(rt; record.merkle_bytes, &samples::ADD_MERKLE[14..55]);
    assert_eq!(rt; above.len(), 0);
    let Contents::Children { left, right } = record.contents else {
        return Err(Fail::new("it is a node"));
    };
    let Pointer::Present {
        path,
        hash,
        in_blum,
    } = left
    else {
        return Err(Fail::new("its left child is present"));
    };
    assert_eq!(rt; path, [0u8, 1, 0].as_slice());
    assert_eq!(rt; hash[0], 0x0807_0605_0403_0201);
    assert_eq!(rt; hash[3], 0x201f_1e1d_1c1b_1a19);
    assert!(rt; in_blum);
    assert!(rt; matches!(right, Pointer::Absent));
    Ok(())
}

#[test]
fn add_blum(rt: HostRuntime) -> Result<(), Fail> {
    sample(&rt, &samples::ADD_BLUM)?;
    let Ok(
        Event {
            verifier: 2,
            entry: Entry::AddBlum {
                record,
                timestamp,
                verifier,
                element,
            },
        },
    ) = read(&samples::ADD_BLUM)
    else {
        return Err(Fail::new("it is an AddBlum of verifier 2"));
    };
    assert_eq!(rt; record.name, b"alice".as_slice());
    assert_eq!(rt; record.merkle_bytes, &samples::ADD_BLUM[17..24]);
    assert_eq!(rt; timestamp.epoch, 3);
    assert_eq!(rt; timestamp.counter, 258);
    assert_eq!(rt; verifier, 1);
    assert_eq!(rt; element, &samples::ADD_BLUM[9..41]);
    let Contents::Value(Some(value)) = record.contents else {
        return Err(Fail::new("it has a value"));
    };
    assert_eq!(rt; value, b"100".as_slice());
    Ok(())
}

#[test]
fn evict_merkle(rt: HostRuntime) -> Result<(), Fail> {
    sample(&rt, &samples::EVICT_MERKLE)?;
    let Ok(
        Event {
            verifier: 0,
            entry: Entry::EvictMerkle { path, above },
        },
    ) = read(&samples::EVICT_MERKLE)
    else {
        return Err(Fail::new("it is an EvictMerkle of verifier 0"));
    };
    assert_eq!(rt; path, [0u8, 1].as_slice());
    assert_eq!(rt; above, [0u8].as_slice());
    Ok(())
}

#[test]
fn evict_blum(rt: HostRuntime) -> Result<(), Fail> {
    sample(&rt, &samples::EVICT_BLUM)?;
    let Ok(
        Event {
            verifier: 1,
            entry: Entry::EvictBlum { path, timestamp },
        },
    ) = read(&samples::EVICT_BLUM)
    else {
        return Err(Fail::new("it is an EvictBlum of verifier 1"));
    };
    assert_eq!(rt; path, [1u8, 0, 1].as_slice());
    assert_eq!(rt; timestamp.epoch, 3);
    assert_eq!(rt; timestamp.counter, 7);
    Ok(())
}

#[test]
fn evict_blum_merkle(rt: HostRuntime) -> Result<(), Fail> {
    sample(&rt, &samples::EVICT_BLUM_MERKLE)?;
    let Ok(
        Event {
            verifier: 1,
            entry: Entry::EvictBlumMerkle {
                path,
                above,
                timestamp,
            },
        },
    ) = read(&samples::EVICT_BLUM_MERKLE)
    else {
        return Err(Fail::new("it is an EvictBlumMerkle of verifier 1"));
    };
    assert_eq!(rt; path, [1u8, 1].as_slice());
    assert_eq!(rt; above.len(), 0);
    assert_eq!(rt; timestamp.epoch, 4);
    assert_eq!(rt; timestamp.counter, 0);
    Ok(())
}

#[test]
fn epochs(rt: HostRuntime) -> Result<(), Fail> {
    sample(&rt, &samples::NEXT_EPOCH)?;
    sample(&rt, &samples::VERIFY_EPOCH)?;
    assert!(rt;
        matches!(
            read(&samples::NEXT_EPOCH),
            Ok(Event {
                verifier: 2,
                entry: Entry::NextEpoch
            })
        )
    );
    assert!(rt;
        matches!(
            read(&samples::VERIFY_EPOCH),
            Ok(Event {
                verifier: 258,
                entry: Entry::VerifyEpoch
            })
        )
    );
    Ok(())
}

#[test]
fn get_and_set(rt: HostRuntime) -> Result<(), Fail> {
    sample(&rt, &samples::GET)?;
    sample(&rt, &samples::GET_NONE)?;
    sample(&rt, &samples::SET)?;
    let Ok(
        Event {
            verifier: 1,
            entry: Entry::Get {
                key,
                value: Some(value),
            },
        },
    ) = read(&samples::GET)
    else {
        return Err(Fail::new("it is a Get of a value"));
    };
    assert_eq!(rt; key, b"alice".as_slice());
    assert_eq!(rt; value, b"100".as_slice());
    let Ok(
        Event {
            verifier: 1,
            entry: Entry::Get { key, value: None },
        },
    ) = read(&samples::GET_NONE)
    else {
        return Err(Fail::new("it is a Get of no value"));
    };
    assert_eq!(rt; key, b"bob".as_slice());
    let Ok(
        Event {
            verifier: 1,
            entry: Entry::Set { key, value },
        },
    ) = read(&samples::SET)
    else {
        return Err(Fail::new("it is a Set"));
    };
    assert_eq!(rt; key, b"alice".as_slice());
    assert_eq!(rt; value, b"90".as_slice());
    Ok(())
}

// With another byte at `at`, it is malformed there.
fn malformed_at(rt: &impl Abort, bytes: &[u8], at: usize, byte: u8) {
    let n = bytes.len();
    let mut other = [0u8; ROOM];
    assert!(rt; n <= ROOM);
    assert!(rt; at < n);
    other[..n].copy_from_slice(bytes);
    other[at] = byte;
    assert_eq!(rt; place(&other[..n]), Some(at));
}

#[test]
fn tags_that_are_none(rt: HostRuntime) {
    // a code
    malformed_at(&rt, &samples::NEXT_EPOCH, 8, 9);
    malformed_at(&rt, &samples::NEXT_EPOCH, 8, 255);
    // a record's kind, and another kind the second time
    malformed_at(&rt, &samples::ADD_MERKLE, 9, 2);
    malformed_at(&rt, &samples::ADD_MERKLE, 14, 0);
    // a child pointer, and whether it is in Blum
    malformed_at(&rt, &samples::ADD_MERKLE, 15, 2);
    malformed_at(&rt, &samples::ADD_MERKLE, 16, 2);
    malformed_at(&rt, &samples::ADD_MERKLE, 54, 2);
    // a value
    malformed_at(&rt, &samples::ADD_BLUM, 18, 2);
    malformed_at(&rt, &samples::GET, 16, 2);
}

// The table of docs/FORMAT.md.
#[test]
fn malformed_examples(rt: HostRuntime) {
    assert_eq!(rt; place(&[]), Some(0));
    assert_eq!(rt; place(&[2, 0, 0]), Some(3));
    assert_eq!(rt; place(&[2, 0, 0, 0, 0, 0, 0, 0]), Some(8));
    assert_eq!(rt; place(&[2, 0, 0, 0, 0, 0, 0, 0, 9]), Some(8));
    assert_eq!(rt; place(&[2, 0, 0, 0, 0, 0, 0, 0, 5, 0]), Some(9));
    assert_eq!(rt; place(&[0, 0, 0, 0, 0, 0, 0, 0, 2, 2, 0, 0]), Some(12));
    assert_eq!(rt; place(&[1, 0, 0, 0, 0, 0, 0, 0, 7, 0, 0, 2]), Some(11));
    assert_eq!(rt; place(&[0, 0, 0, 0, 0, 0, 0, 0, 0, 1, 0, 0, 0]), Some(12));
}
