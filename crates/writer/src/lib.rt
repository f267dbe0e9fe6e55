// Bytes written into lent bytes, one after the other.
#![tactic(auto)]

ghost use Rattle.std.specs.Prelude.{◌≤◌, length};

// Lent bytes, and where the next one goes.
#[derive(Drop)]
pub struct Writer<'a> {
    pub out: &'a mut [u8],
    pub at: usize,
    ghost inside: { at ≤ length out.now },
}

impl<'a> Writer<'a> {
    ghost use Rattle.std.specs.Prelude.{◌≡◌, ◌+◌, ◌*◌, [], ◌∷◌};
    ghost use Rattle.std.specs.List.{flat_map};
    ghost use Rattle.model.specs.Records.{le_bytes};
    ghost use Rattle.writer.specs.Written.{Written};

    // A writer whose next byte goes to `at`.
    pub fn new(out: &'a mut [u8], at: usize) -> Writer<'a>
        requires { at ≤ length out.old }
        ensures same { result.out.ghost_name ≡ out.entry.ghost_name }
        ensures out { result.out.now ≡ out.old }
        ensures at { result.at ≡ at }
    {
        Writer { out, at }
    }

    pub fn byte(&mut self, byte: u8)
        requires { self.old.at + 1 ≤ length self.old.out.now }
        ensures { Written self.old (byte ∷ []) self.new }
    {
        self.out[self.at] = byte;
        self.at += 1;
    }

    pub fn bytes(&mut self, bytes: &[u8])
        requires { self.old.at + length bytes.now ≤ length self.old.out.now }
        ensures { Written self.old bytes.now self.new }
    {
        let end = self.at + bytes.len();
        self.out[self.at..end].copy_from_slice(bytes);
        self.at = end;
    }

    // A number in eight bytes, the low one first.
    pub fn number(&mut self, n: u64)
        requires { self.old.at + 8 ≤ length self.old.out.now }
        ensures end { self.new.at ≡ self.old.at + 8 }
        ensures wrote { Written self.old (le_bytes 8 n) self.new }
    {
        self.bytes(&n.to_le_bytes());
    }

    // Numbers, one after the other.
    pub fn numbers(&mut self, ns: &[u64])
        requires { self.old.at + 8 * length ns.now ≤ length self.old.out.now }
        ensures end { self.new.at ≡ self.old.at + 8 * length ns.now }
        ensures wrote { Written self.old (flat_map (le_bytes 8) ns.now) self.new }
    {
        for n in ns {
            self.number(*n);
        }
    }

    // A length in two bytes, the low one first.
    pub fn length(&mut self, n: usize)
        requires { self.old.at + 2 ≤ length self.old.out.now }
        ensures end { self.new.at ≡ self.old.at + 2 }
        ensures wrote { Written self.old (le_bytes 2 n) self.new }
    {
        // `as`: TryFrom would want an answer for what the remainder rules out
        self.bytes(&((n % 65536) as u16).to_le_bytes());
    }
}
