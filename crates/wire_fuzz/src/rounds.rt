// One round of each property, and the counts of all.
use crate::random::Random;
use wire::{Event, Malformed, read, read_answer};
use wire_write::{write_answer, write_event};

// Longer than any event that is made here.
const ROOM: usize = 512;

const POOL: usize = 32;

const ANSWER_ROOM: usize = 12;

#[derive(Default, Drop)]
pub struct Counts {
    pub events: u64,
    pub malformed: u64,
    pub answers: u64,
    pub none: u64,
    pub failed: u64,
}

impl Counts {
    fn expect(&mut self, holds: bool) {
        if !holds {
            self.failed = self.failed.wrapping_add(1);
        }
    }
}

fn fill(random: &mut Random, to: &mut [u8]) {
    for b in to.iter_mut() {
        *b = random.byte();
    }
}

// The bytes that an event is read from are those that it is written as.
fn same_again(bytes: &[u8]) -> bool {
    let Ok(Event { verifier, entry }) = read(bytes) else {
        return false;
    };
    let mut to = [0u8; ROOM];
    match write_event(&mut to, verifier, entry) {
        Some(n) => to.get(..n) == Some(bytes),
        None => false,
    }
}

// An event is written again as it was. What is malformed at a place is so there when it is cut there, unless that is an event with nothing after it.
fn judged(bytes: &[u8], counts: &mut Counts) {
    let Err(Malformed { at }) = read(bytes) else {
        counts.events = counts.events.wrapping_add(1);
        counts.expect(same_again(bytes));
        return;
    };
    counts.malformed = counts.malformed.wrapping_add(1);
    let Some(front) = bytes.get(..at) else {
        counts.expect(false);
        return;
    };
    match read(front) {
        Ok(_) => counts.expect(at < bytes.len() && same_again(front)),
        Err(cut) => counts.expect(cut.at == at),
    }
}

// A random event in `to`, if it fits: how many bytes it has.
fn random_event(random: &mut Random, to: &mut [u8]) -> Option<usize> {
    let mut pool = [0u8; POOL];
    fill(random, &mut pool);
    let verifier = random.number();
    let entry = random.entry(&pool);
    write_event(to, verifier, entry)
}

pub fn written_event(random: &mut Random, counts: &mut Counts) {
    let mut to = [0u8; ROOM];
    match random_event(random, &mut to) {
        Some(n) if n <= ROOM => {
            counts.expect(same_again(&to[..n]));
            judged(&to[..n], counts);
        }
        _ => counts.expect(false),
    }
}

// One byte is another; then it is cut short, or goes on.
pub fn changed_event(random: &mut Random, counts: &mut Counts) {
    let mut to = [0u8; ROOM];
    let event = random_event(random, &mut to);
    let at = usize::from(random.byte() % 64);
    let byte = random.byte() % 16;
    let by = usize::from(random.byte() % 4);
    match event {
        Some(n) if n <= ROOM - 4 => {
            judged(&to[..n + by], counts);
            judged(&to[..n.saturating_sub(by)], counts);
            to[at] = byte;
            judged(&to[..n], counts);
        }
        _ => counts.expect(false),
    }
}

// Small numbers, so that some are tags and lengths.
pub fn any_bytes(random: &mut Random, counts: &mut Counts) {
    let mut bytes = [0u8; 64];
    for b in bytes.iter_mut() {
        *b = random.byte() % 4;
    }
    let n = usize::from(random.byte() % 65);
    judged(&bytes[..n], counts);
}

// An answer is read back and written again as it was; bytes are an answer only if it is written so.
pub fn any_answer(random: &mut Random, counts: &mut Counts) {
    let mut to = [0u8; ANSWER_ROOM];
    match write_answer(&mut to, random.answer()) {
        Some(n) if n <= ANSWER_ROOM => {
            let is_answer = judged_answer(&to[..n], counts);
            counts.expect(is_answer);
        }
        _ => counts.expect(false),
    }
    fill(random, &mut to);
    to[0] = random.byte() % 5;
    let n = usize::from(random.byte()) % (ANSWER_ROOM + 1);
    let _ = judged_answer(&to[..n], counts);
}

// Whether the bytes are an answer.
fn judged_answer(bytes: &[u8], counts: &mut Counts) -> bool {
    let Some(answer) = read_answer(bytes) else {
        counts.none = counts.none.wrapping_add(1);
        return false;
    };
    counts.answers = counts.answers.wrapping_add(1);
    let mut to = [0u8; ANSWER_ROOM];
    match write_answer(&mut to, answer) {
        Some(n) => counts.expect(to.get(..n) == Some(bytes)),
        None => counts.expect(false),
    }
    true
}
