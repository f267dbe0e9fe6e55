// Fields and records written into a lent slice, one after the other.
ghost use Rattle.std.specs.Prelude.{◌≡◌, ◌+◌, ◌^◌, ◌<◌, ◌≤◌, length};
ghost use Rattle.reader.specs.Meaning.{hash_number, value_of, pointer_of, record_of, timestamp_of};
ghost use Rattle.wire_write.specs.Written.{page, with_bytes, with_byte, with_sized, with_number, with_hash, with_timestamp, with_value, with_pointer, with_record, sized_room, value_room, pointer_room, record_room};

use wire::{Contents, Pointer, Record, Timestamp};

// A lent slice, and where its next byte goes.
#[derive(Drop)]
pub struct Writer<'a> {
    to: &'a mut [u8],
    pub at: usize,
    ghost inside: { at ≤ length to.now },
}

impl<'a> Writer<'a> {
    ghost use Rattle.wire_write.specs.Page.{page_of, left};

    pub fn new(to: &'a mut [u8]) -> Writer<'a>
        ensures same { result.to.ghost_name ≡ to.entry.ghost_name }
        ensures left { left result ≡ length to.old }
        ensures written { page_of result ≡ page to.old 0 }
    {
        Writer { to, at: 0 }
    }

    pub fn byte(&mut self, byte: u8)
        requires { 1 ≤ left self.old }
        ensures same { self.new.to.ghost_name ≡ self.old.to.ghost_name }
        ensures left { left self.new + 1 ≡ left self.old }
        ensures written { page_of self.new ≡ with_byte (page_of self.old) byte }
    {
        self.to[self.at] = byte;
        self.at += 1;
    }

    fn slice(&mut self, part: &[u8])
        requires { length part.now ≤ left self.old }
        ensures same { self.new.to.ghost_name ≡ self.old.to.ghost_name }
        ensures left { left self.new + length part.now ≡ left self.old }
        ensures written { page_of self.new ≡ with_bytes (page_of self.old) part.now }
    {
        let end = self.at + part.len();
        self.to[self.at..end].copy_from_slice(part);
        self.at = end;
    }

    // A text's length in two bytes, then the text. A length past two bytes would lose its high ones: see `event_len`.
    pub fn sized(&mut self, text: &[u8])
        requires { sized_room text.now ≤ left self.old }
        ensures same { self.new.to.ghost_name ≡ self.old.to.ghost_name }
        ensures left { left self.new + sized_room text.now ≡ left self.old }
        ensures written { page_of self.new ≡ with_sized (page_of self.old) text.now }
    {
        let len = text.len();
        self.byte((len % 256) as u8);
        self.byte((len / 256 % 256) as u8);
        self.slice(text);
    }

    pub fn number(&mut self, n: u64)
        requires { 8 ≤ left self.old }
        ensures same { self.new.to.ghost_name ≡ self.old.to.ghost_name }
        ensures left { left self.new + 8 ≡ left self.old }
        ensures written { page_of self.new ≡ with_number (page_of self.old) n }
        ensures fits { n < 2 ^ 64 }
    {
        self.slice(&n.to_le_bytes());
    }

    fn hash(&mut self, hash: [u64; 4])
        requires { 32 ≤ left self.old }
        ensures same { self.new.to.ghost_name ≡ self.old.to.ghost_name }
        ensures left { left self.new + 32 ≡ left self.old }
        ensures written { page_of self.new ≡ with_hash (page_of self.old) (hash_number hash) }
    {
        self.number(hash[0]);
        self.number(hash[1]);
        self.number(hash[2]);
        self.number(hash[3]);
    }

    pub fn timestamp(&mut self, timestamp: Timestamp)
        requires { 16 ≤ left self.old }
        ensures same { self.new.to.ghost_name ≡ self.old.to.ghost_name }
        ensures left { left self.new + 16 ≡ left self.old }
        ensures written { page_of self.new ≡ with_timestamp (page_of self.old) (timestamp_of timestamp) }
    {
        self.number(timestamp.epoch);
        self.number(timestamp.counter);
    }

    pub fn value(&mut self, value: Option<&[u8]>)
        requires { value_room (value_of value) ≤ left self.old }
        ensures same { self.new.to.ghost_name ≡ self.old.to.ghost_name }
        ensures left { left self.new + value_room (value_of value.entry) ≡ left self.old }
        ensures written { page_of self.new ≡ with_value (page_of self.old) (value_of value.entry) }
    {
        match value {
            None => self.byte(0),
            Some(text) => {
                self.byte(1);
                self.sized(text);
            }
        }
    }

    fn pointer(&mut self, pointer: Pointer<'_>)
        requires { pointer_room (pointer_of pointer) ≤ left self.old }
        ensures same { self.new.to.ghost_name ≡ self.old.to.ghost_name }
        ensures left { left self.new + pointer_room (pointer_of pointer.entry) ≡ left self.old }
        ensures written { page_of self.new ≡ with_pointer (page_of self.old) (pointer_of pointer.entry) }
    {
        match pointer {
            Pointer::Absent => self.byte(0),
            Pointer::Present {
                path,
                hash,
                in_blum,
            } => {
                self.byte(1);
                self.byte(u8::from(in_blum));
                self.sized(path);
                self.hash(hash);
            }
        }
    }

    pub fn record(&mut self, record: Record<'_>)
        requires { record_room (record_of «record») ≤ left self.old }
        ensures same { self.new.to.ghost_name ≡ self.old.to.ghost_name }
        ensures left { left self.new + record_room (record_of «record».entry) ≡ left self.old }
        ensures written { page_of self.new ≡ with_record (page_of self.old) (record_of «record».entry) }
    {
        match record.contents {
            Contents::Value(value) => {
                self.byte(0);
                self.sized(record.name);
                self.byte(0);
                self.value(value);
            }
            Contents::Children { left, right } => {
                self.byte(1);
                self.sized(record.name);
                self.byte(1);
                self.pointer(left);
                self.pointer(right);
            }
        }
    }
}
