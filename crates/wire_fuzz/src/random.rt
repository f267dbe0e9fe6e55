// A pseudo-random sequence (xorshift), and random values made of it.
use wire::{Answer, Contents, Entry, Pointer, Record, Timestamp};

#[derive(Drop)]
pub struct Random {
    state: u64,
}

impl Random {
    pub fn new(seed: u64) -> Self {
        Random { state: seed }
    }

    pub fn number(&mut self) -> u64 {
        let mut x = self.state;
        x ^= x << 13;
        x ^= x >> 7;
        x ^= x << 17;
        self.state = x;
        x
    }

    pub fn byte(&mut self) -> u8 {
        self.number().to_le_bytes()[4]
    }

    fn flag(&mut self) -> bool {
        self.byte() < 128
    }

    // A part of the pool, from its front.
    fn text<'a>(&mut self, pool: &'a [u8]) -> &'a [u8] {
        let n = usize::from(self.byte() % 20);
        &pool[..n.min(pool.len())]
    }

    fn value<'a>(&mut self, pool: &'a [u8]) -> Option<&'a [u8]> {
        if self.flag() {
            return None;
        }
        Some(self.text(pool))
    }

    fn pointer<'a>(&mut self, pool: &'a [u8]) -> Pointer<'a> {
        if self.flag() {
            return Pointer::Absent;
        }
        let path = self.text(pool);
        let hash = [self.number(), self.number(), self.number(), self.number()];
        let in_blum = self.flag();
        Pointer::Present {
            path,
            hash,
            in_blum,
        }
    }

    fn record<'a>(&mut self, pool: &'a [u8]) -> Record<'a> {
        let name = self.text(pool);
        let contents = if self.flag() {
            Contents::Value(self.value(pool))
        } else {
            let left = self.pointer(pool);
            let right = self.pointer(pool);
            Contents::Children { left, right }
        };
        Record {
            name,
            contents,
            merkle_bytes: &[],
        }
    }

    fn timestamp(&mut self) -> Timestamp {
        let epoch = self.number();
        let counter = self.number();
        Timestamp { epoch, counter }
    }

    pub fn entry<'a>(&mut self, pool: &'a [u8]) -> Entry<'a> {
        let path = self.text(pool);
        let above = self.text(pool);
        let timestamp = self.timestamp();
        match self.byte() % 9 {
            0 => Entry::AddMerkle {
                record: self.record(pool),
                above,
            },
            1 => Entry::AddBlum {
                record: self.record(pool),
                timestamp,
                verifier: self.number(),
                element: &[],
            },
            2 => Entry::EvictMerkle { path, above },
            3 => Entry::EvictBlum { path, timestamp },
            4 => Entry::EvictBlumMerkle {
                path,
                above,
                timestamp,
            },
            5 => Entry::NextEpoch,
            6 => Entry::VerifyEpoch,
            7 => Entry::Get {
                key: path,
                value: self.value(pool),
            },
            _ => Entry::Set {
                key: path,
                value: above,
            },
        }
    }

    pub fn answer(&mut self) -> Answer {
        match self.byte() % 4 {
            0 => Answer::Refused(self.byte(), self.number()),
            1 => Answer::Wrong,
            2 => Answer::Right,
            _ => Answer::Certified(self.number()),
        }
    }
}
