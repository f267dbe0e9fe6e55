// The bits of paths, into a byte for each.
ghost use Rattle.std.specs.Prelude.{◌≡◌, ◌+◌, ◌*◌, ◌<◌, ◌≤◌, length, take, drop};
ghost use Rattle.model.specs.Records.{bits};
ghost use Rattle.path.specs.Packs.{path_in, word_bits};
ghost use Rattle.writer.specs.Written.{Written};

use writer::Writer;

// Writes the bits of a path of `len` bits, eight at a time, and then what is left. The place of a byte in the words is what is counted.
pub fn bits_into(len: usize, bits: &[u64], w: &mut Writer)
    requires words { len ≤ 64 * length bits.now }
    requires room { w.old.at + len ≤ length w.old.out.now }
    ensures end { w.new.at ≡ w.old.at + len }
    ensures wrote { Written w.old (path_in len bits.now) w.new }
{
    for j in 0..len / 8 {
        w.bytes(&unpack_byte(byte_of(bits, j)));
    }
    if len % 8 > 0 {
        let last = unpack_byte(byte_of(bits, len / 8));
        w.bytes(&last[..len % 8]);
    }
}

// The byte at `j`, eight bits.
fn byte_of(words: &[u64], j: usize) -> u64
    requires { 8 * j + 8 ≤ 64 * length words.now }
    ensures byte { result < 256 }
    ensures bits { bits 8 result ≡ take 8 (drop (8 * j) (word_bits words.now)) }
{
    (words[j / 8] >> (56 - 8 * (j % 8))) & 0xff
}

// The bits of a byte: a product puts one of them at the head of each of eight bytes.
fn unpack_byte(byte: u64) -> [u8; 8]
    requires { byte < 256 }
    ensures { result ≡ bits 8 byte }
{
    let spread = byte.wrapping_mul(0x8040_2010_0804_0201) >> 7;
    (spread & 0x0101_0101_0101_0101).to_le_bytes()
}
