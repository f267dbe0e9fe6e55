// Each answer: its bytes; cut short; with a byte too many; with a kind that is none.
use std::process::Abort;
use wire::{Answer, read_answer};
use wire_write::write_answer;

const ROOM: usize = 16;

// Written as `bytes` and read back; nothing shorter or longer is it.
fn both_ways(rt: &impl Abort, answer: Answer, bytes: &[u8]) {
    let n = bytes.len();
    let mut to = [0u8; ROOM];
    assert_eq!(rt; write_answer(&mut to, answer), Some(n));
    assert!(rt; n < ROOM);
    assert_eq!(rt; &to[..n], bytes);
    assert_eq!(rt; read_answer(&to[..n]), Some(answer));
    assert_eq!(rt; read_answer(&to[..n + 1]), None);
    // lengths, and no items: each front of the bytes
    for k in 0..n {
        assert_eq!(rt; read_answer(&to[..k]), None);
        let mut short = [0u8; ROOM];
        assert_eq!(rt; write_answer(&mut short[..k], answer), None);
        assert_eq!(rt; short, [0u8; ROOM]);
    }
}

#[test]
fn each_answer(rt: HostRuntime) {
    both_ways(
        &rt,
        Answer::Refused(4, 258),
        &[0, 4, 2, 1, 0, 0, 0, 0, 0, 0],
    );
    both_ways(&rt, Answer::Wrong, &[1]);
    both_ways(&rt, Answer::Right, &[2]);
    both_ways(&rt, Answer::Certified(7), &[3, 7, 0, 0, 0, 0, 0, 0, 0]);
}

#[test]
fn read_back(rt: HostRuntime) {
    assert_eq!(rt;
        read_answer(&[0, 4, 2, 1, 0, 0, 0, 0, 0, 0]),
        Some(Answer::Refused(4, 258))
    );
    assert_eq!(rt;
        read_answer(&[3, 7, 0, 0, 0, 0, 0, 0, 0]),
        Some(Answer::Certified(7))
    );
    assert_eq!(rt; read_answer(&[1]), Some(Answer::Wrong));
    assert_eq!(rt; read_answer(&[2]), Some(Answer::Right));
    assert_eq!(rt; read_answer(&[4]), None);
    assert_eq!(rt; read_answer(&[]), None);
}
