// Bytes in words, eight to a word, the low one first.
ghost use Rattle.std.specs.Prelude.{◌≡◌, ◌+◌, ◌*◌, ◌/◌, ◌≤◌, length, take};
ghost use Rattle.model.specs.Records.{le_number, same_bytes};
ghost use Rattle.slot.specs.Layout.{bytes_in};

// Up to eight bytes as a word.
fn word_of(bytes: &[u8]) -> u64
    requires { length bytes.now ≤ 8 }
    ensures { result ≡ le_number bytes.now }
{
    let mut eight = [0; 8];
    eight[..bytes.len()].copy_from_slice(bytes);
    u64::from_le_bytes(eight)
}

// Writes bytes into the words that they take.
pub fn write_bytes(words: &mut [u64], bytes: &[u8])
    requires few { length bytes.now ≤ 1024 }
    requires fits { length words.old ≡ (length bytes.now + 7) / 8 }
    ensures { take (length bytes.now) (bytes_in words.new) ≡ bytes.now }
{
    let (eights, tail) = bytes.as_chunks();
    // by index: of words that `iter_mut` lends out a proof knows only how many there are
    for (j, eight) in eights.iter().enumerate() {
        words[j] = u64::from_le_bytes(*eight);
    }
    if !tail.is_empty() {
        words[eights.len()] = word_of(tail);
    }
}

// Are these the first `len` bytes in the words, which don't say how many of them are used? Eight at a time, and then what is left.
pub fn same_bytes(words: &[u64], len: usize, bytes: &[u8]) -> bool
    requires room { len ≤ 8 * length words.now }
    ensures { result ≡ same_bytes (take len (bytes_in words.now)) bytes.now }
{
    let (eights, tail) = bytes.as_chunks();
    let same = bytes.len() == len
        && eights
            .iter()
            .zip(words)
            .all(|(eight, word)| u64::from_le_bytes(*eight) == *word);
    match words.get(eights.len()) {
        Some(word) => same && &word.to_le_bytes()[..tail.len()] == tail,
        None => same,
    }
}
