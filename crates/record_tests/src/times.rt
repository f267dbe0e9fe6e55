// Timestamps: their order, with paths and without, and the next one.
use path::{Path, Timestamp};
use record::key_path;
use std::test::Fail;

fn at(epoch: u64, counter: u64) -> Timestamp {
    Timestamp { epoch, counter }
}

#[test]
fn order(rt: HostRuntime) {
    assert!(rt; at(1, 9).is_earlier(at(2, 0)));
    assert!(rt; at(2, 0).is_earlier(at(2, 1)));
    assert!(rt; !at(2, 1).is_earlier(at(2, 1)));
    assert!(rt; !at(2, 0).is_earlier(at(1, 9)));
}

#[test]
fn order_with_paths(rt: HostRuntime) {
    let root = Path::root();
    let key = key_path(b"abc");
    assert!(rt; at(2, 1).is_earlier_with(&root, at(2, 1), &key));
    assert!(rt; !at(2, 1).is_earlier_with(&key, at(2, 1), &key));
    assert!(rt; at(2, 0).is_earlier_with(&key, at(2, 1), &root));
    assert!(rt; !at(2, 1).is_earlier_with(&root, at(2, 0), &key));
}

#[test]
fn next(rt: HostRuntime) -> Result<(), Fail> {
    assert!(rt; at(1, u64::MAX).just_after().is_none());
    match at(1, 4).just_after() {
        Some(t) => {
            assert_eq!(rt; t.counter, 5);
            Ok(())
        },
        None => Err(Fail::new("there is a next one")),
    }
}
