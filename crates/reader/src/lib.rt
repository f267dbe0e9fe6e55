// Fields and records read from bytes, without a copy.
#![tactic(auto)]

ghost use Rattle.std.specs.Prelude.{◌≡◌, ℕ, Bool, true, length, IfSome};
ghost use Rattle.std.specs.Option.{option_map};
ghost use Rattle.std.specs.Int.{from_bool};
ghost use Rattle.model.specs.Readable.{all_below};
ghost use Rattle.model.specs.Wire.{reads_chunk, reads_number, reads_one, reads_tag, reads_just, reads_sized, reads_value, reads_pointer, reads_contents, reads_record, reads_timestamp};
ghost use Rattle.reader.specs.Meaning.{out, hash_number, value_of, pointer_of, contents_of, record_of, timestamp_of, MerklePart};

pub use path::Timestamp;

// The bytes that are yet to be read. A reader that finds nothing returns `None` and stays at the first byte that is wrong.
#[derive(Drop)]
pub struct Reader<'a> {
    pub rest: &'a [u8],
}

// What a node knows of one side.
#[derive(Clone, Copy)]
pub enum Pointer<'a> {
    Absent,
    Present {
        path: &'a [u8],
        hash: [u64; 4],
        in_blum: bool,
    },
}

// What is at a key, or at a node.
#[derive(Clone, Copy)]
pub enum Contents<'a> {
    Value(Option<&'a [u8]>),
    Children {
        left: Pointer<'a>,
        right: Pointer<'a>,
    },
}

// A key or a node's path, what is there, and the part of the bytes that its Merkle hash is taken over.
#[derive(Clone, Copy)]
pub struct Record<'a> {
    pub name: &'a [u8],
    pub contents: Contents<'a>,
    pub merkle_bytes: &'a [u8],
}

// How many bytes there are. That each is below 256 is known only of a slice that is passed, so it is said here for callers.
pub fn byte_len(bytes: &[u8]) -> usize
    ensures value { result ≡ length bytes.now }
    ensures small { all_below 256 bytes.now ≡ true }
{
    bytes.len()
}

impl<'a> Reader<'a> {
    // The next byte, if it is fit.
    fn byte<F: Fn(u8) -> bool>(&mut self, is_fit: F) -> Option<u8>
        requires { F.IsAlwaysCallable is_fit }
        ensures { (fit : ℕ → Bool) → ((x : ℕ) (b : Bool) → F.post is_fit x b → fit x ≡ b) → reads_one fit self.old.rest.now ≡ out result self.new.rest.now }
    {
        let (first, rest) = self.rest.split_first()?;
        if !is_fit(*first) {
            return None;
        }
        self.rest = rest;
        Some(*first)
    }

    // A byte below `end`.
    pub fn tag(&mut self, end: u16) -> Option<u8>
        ensures { reads_tag end self.old.rest.now ≡ out result self.new.rest.now }
    {
        self.byte(|b| u16::from(b) < end)
    }

    // The byte `is`.
    fn just(&mut self, is: u8) -> Option<u8>
        ensures { reads_just is self.old.rest.now ≡ out result self.new.rest.now }
    {
        self.byte(|b| b == is)
    }

    // 0 or 1.
    fn flag(&mut self) -> Option<bool>
        ensures { reads_tag 2 self.old.rest.now ≡ out (option_map from_bool result) self.new.rest.now }
    {
        Some(self.tag(2)? == 1)
    }

    // The next `n` bytes.
    #[tactic(auto, using(crate::proofs::Steps::chunk_short, crate::proofs::Steps::chunk_long))]
    fn chunk(&mut self, n: usize) -> Option<&'a [u8]>
        ensures reads { reads_chunk n self.old.rest.now ≡ out (option_map (λ x. x.now) result) self.new.rest.now }
        ensures len { IfSome result (λ x. length x.now ≡ n) }
    {
        let all = self.rest;
        let Some((bytes, rest)) = all.split_at_checked(n) else {
            self.rest = &all[all.len()..];
            return None;
        };
        self.rest = rest;
        Some(bytes)
    }

    // The next `N` bytes, as an array.
    fn array<const N: usize>(&mut self) -> Option<&'a [u8; N]>
        ensures reads { reads_chunk N self.old.rest.now ≡ out (option_map (λ x. x.now) result) self.new.rest.now }
        ensures len { IfSome result (λ x. length x.now ≡ N) }
    {
        self.chunk(N)?.as_array()
    }

    // A length, in two bytes.
    #[tactic(auto, unfolding(model::specs::Wire::reads_number))]
    fn size(&mut self) -> Option<usize>
        ensures { reads_number 2 self.old.rest.now ≡ out result self.new.rest.now }
    {
        let bytes = self.array::<2>()?;
        Some(usize::from(u16::from_le_bytes(*bytes)))
    }

    // A number, in eight bytes.
    #[tactic(auto, unfolding(model::specs::Wire::reads_number))]
    pub fn number(&mut self) -> Option<u64>
        ensures { reads_number 8 self.old.rest.now ≡ out result self.new.rest.now }
    {
        let bytes = self.array::<8>()?;
        Some(u64::from_le_bytes(*bytes))
    }

    // A hash, in four numbers.
    #[tactic(auto, using(crate::proofs::Steps::hash_words))]
    fn hash(&mut self) -> Option<[u64; 4]>
        ensures { reads_number 32 self.old.rest.now ≡ out (option_map hash_number result) self.new.rest.now }
    {
        Some([
            self.number()?,
            self.number()?,
            self.number()?,
            self.number()?,
        ])
    }

    // A path, a key or a text, after its length.
    #[tactic(auto, unfolding(model::specs::Wire::reads_sized))]
    pub fn sized(&mut self) -> Option<&'a [u8]>
        ensures { reads_sized self.old.rest.now ≡ out (option_map (λ x. x.now) result) self.new.rest.now }
    {
        let n = self.size()?;
        self.chunk(n)
    }

    // 0 for no value, or 1 and the value.
    pub fn value(&mut self) -> Option<Option<&'a [u8]>>
        ensures { reads_value self.old.rest.now ≡ out (option_map value_of result) self.new.rest.now }
    {
        if !self.flag()? {
            return Some(None);
        }
        let value = self.sized()?;
        Some(Some(value))
    }

    // 0 for an absent child, or 1, whether it is in Blum, its path and its hash.
    fn pointer(&mut self) -> Option<Pointer<'a>>
        ensures { reads_pointer self.old.rest.now ≡ out (option_map pointer_of result) self.new.rest.now }
    {
        if !self.flag()? {
            return Some(Pointer::Absent);
        }
        let in_blum = self.flag()?;
        let path = self.sized()?;
        let hash = self.hash()?;
        Some(Pointer::Present {
            path,
            hash,
            in_blum,
        })
    }

    pub fn timestamp(&mut self) -> Option<Timestamp>
        ensures { reads_timestamp self.old.rest.now ≡ out (option_map timestamp_of result) self.new.rest.now }
    {
        let epoch = self.number()?;
        let counter = self.number()?;
        Some(Timestamp { epoch, counter })
    }

    // The rest of a record of this kind: of a key, its value; of a node, its children.
    // The kind stays the format's number: `record` has just compared its second mention with the first.
    fn contents(&mut self, kind: u8, name: &'a [u8]) -> Option<Contents<'a>>
        ensures { reads_contents kind name.now self.old.rest.now ≡ out (option_map (contents_of name.now) result) self.new.rest.now }
    {
        if kind == 0 {
            let value = self.value()?;
            return Some(Contents::Value(value));
        }
        let left = self.pointer()?;
        let right = self.pointer()?;
        Some(Contents::Children { left, right })
    }

    // Its kind, its key or path, its kind again, and what is there.
    pub fn record(&mut self) -> Option<Record<'a>>
        ensures reads { reads_record self.old.rest.now ≡ out (option_map record_of result) self.new.rest.now }
        ensures merkle { IfSome result MerklePart }
    {
        let kind = self.tag(2)?;
        let name = self.sized()?;
        let all = self.rest;
        let size = byte_len(all);
        self.just(kind)?;
        let contents = self.contents(kind, name)?;
        let merkle_bytes = &all[0..size - self.rest.len()];
        Some(Record {
            name,
            contents,
            merkle_bytes,
        })
    }
}
