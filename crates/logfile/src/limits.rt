// The first line of a log file: the limits that it is written under.
ghost use Rattle.std.specs.Prelude.{◌≡◌, ℕ, ◌^◌, ◌<◌, IfOk};
ghost use Rattle.std.specs.Option.{option_map};
ghost use Rattle.logfile.specs.FirstLine.{digits_on, number_at, past_byte, number_then, in_range, line_text, read_line, words_for};

use std::fmt;

const MAX_VERIFIERS: u16 = 64;

const MAX_PLACES: u16 = 32_768;

const MAX_EPOCHS: u16 = 16;

const PLACE_WORDS: usize = 192;

const VERIFIER_WORDS: usize = 64;

const EPOCH_WORDS: usize = 32;

const HEADER_WORDS: usize = 256;

// How many verifiers there are, how many places each has, and how many epochs are under way at once.
#[derive(Clone, Copy, Debug, PartialEq, Eq)]
pub struct Limits {
    pub verifiers: u16,
    pub places: u16,
    pub epochs: u16,
}

// What is wrong with a first line.
#[derive(Clone, Copy, Debug, PartialEq, Eq)]
pub enum LineRefusal {
    NotThreeNumbers,
    Verifiers,
    Places,
    Epochs,
}

impl fmt::Display for LineRefusal {
    fn fmt<W: fmt::Write>(&self, f: &mut fmt::Formatter<W>) -> fmt::Result {
        match *self {
            LineRefusal::NotThreeNumbers => {
                f.write_str("the first line is not 'VERIFIERS PLACES EPOCHS'")
            }
            LineRefusal::Verifiers => {
                write!(
                    f,
                    "the first line asks for other than 1 to {MAX_VERIFIERS} verifiers"
                )
            }
            LineRefusal::Places => {
                write!(
                    f,
                    "the first line asks for other than 2 to {MAX_PLACES} places"
                )
            }
            LineRefusal::Epochs => {
                write!(
                    f,
                    "the first line asks for other than 2 to {MAX_EPOCHS} epochs"
                )
            }
        }
    }
}

impl Limits {
    // How many words of memory are needed under these limits.
    pub fn memory_words(self) -> usize
        ensures { result ≡ words_for self }
    {
        let verifiers = usize::from(self.verifiers);
        let places = usize::from(self.places);
        let epochs = usize::from(self.epochs);
        PLACE_WORDS * (verifiers * places)
            + VERIFIER_WORDS * verifiers
            + EPOCH_WORDS * epochs
            + HEADER_WORDS
    }
}

// The number that `start` becomes with the digits in front put behind its own, and what stands after them.
// It ends at the largest u16, which is past every range.
fn with_digits(start: u16, bytes: &[u8]) -> (u16, &[u8])
    ensures { (result.0, result.1.now) ≡ digits_on start bytes.now }
{
    let mut n = start;
    let mut rest = bytes;
    while let [digit @ b'0'..=b'9', after @ ..] = rest {
        n = n
            .saturating_mul(10)
            .saturating_add(u16::from(*digit - b'0'));
        rest = after;
    }
    (n, rest)
}

// A number with no zero in front of it, and what stands after it.
fn number(bytes: &[u8]) -> Option<(u16, &[u8])>
    ensures { option_map (λ x. (x.0, x.1.now)) result ≡ number_at bytes.now }
{
    match bytes {
        [b'0', rest @ ..] => Some((0, rest)),
        [digit @ b'1'..=b'9', rest @ ..] => Some(with_digits(u16::from(*digit - b'0'), rest)),
        _ => None,
    }
}

// What stands after the byte.
fn past(byte: u8, bytes: &[u8]) -> Option<&[u8]>
    ensures { option_map (λ x. x.now) result ≡ past_byte byte bytes.now }
{
    bytes.strip_prefix(&[byte])
}

// A number with the byte `end` after it, and what stands after that.
fn number_then(end: u8, bytes: &[u8]) -> Option<(u16, &[u8])>
    ensures { option_map (λ x. (x.0, x.1.now)) result ≡ number_then end bytes.now }
{
    let (n, rest) = number(bytes)?;
    Some((n, past(end, rest)?))
}

fn ranged(verifiers: u16, places: u16, epochs: u16) -> Result<Limits, LineRefusal>
    ensures { result ≡ in_range verifiers places epochs }
{
    if !(1..=MAX_VERIFIERS).contains(&verifiers) {
        return Err(LineRefusal::Verifiers);
    }
    if !(2..=MAX_PLACES).contains(&places) {
        return Err(LineRefusal::Places);
    }
    if !(2..=MAX_EPOCHS).contains(&epochs) {
        return Err(LineRefusal::Epochs);
    }
    Ok(Limits {
        verifiers,
        places,
        epochs,
    })
}

// The limits in a first line, which has its line end. Each first line has one spelling.
pub fn read_limits(line: &[u8]) -> Result<Limits, LineRefusal>
    ensures value { result ≡ read_line line.now }
    ensures text { IfOk result (λ l. line.now ≡ line_text l.verifiers l.places l.epochs) }
    ensures tells { (v p e : ℕ) → v < 2 ^ 64 → p < 2 ^ 64 → e < 2 ^ 64 → line.now ≡ line_text v p e → result ≡ in_range v p e }
{
    limits_in(line)
}

// What `read_limits` gives. Its other clauses follow from this one, so they are shown at one return.
fn limits_in(line: &[u8]) -> Result<Limits, LineRefusal>
    ensures { result ≡ read_line line.now }
{
    let (verifiers, rest) = number_then(b' ', line).ok_or(LineRefusal::NotThreeNumbers)?;
    let (places, rest) = number_then(b' ', rest).ok_or(LineRefusal::NotThreeNumbers)?;
    let (epochs, rest) = number_then(b'\n', rest).ok_or(LineRefusal::NotThreeNumbers)?;
    if !rest.is_empty() {
        return Err(LineRefusal::NotThreeNumbers);
    }
    ranged(verifiers, places, epochs)
}

#[cfg(test)]
mod tests {
    use super::*;

    #[test]
    fn first_lines_are_read(rt: HostRuntime) {
        let limits = Limits {
            verifiers: 64,
            places: 32_768,
            epochs: 16,
        };
        assert_eq!(rt; read_limits(b"64 32768 16\n"), Ok(limits));
        let limits = Limits {
            verifiers: 1,
            places: 2,
            epochs: 2,
        };
        assert_eq!(rt; read_limits(b"1 2 2\n"), Ok(limits));
        assert_eq!(rt; limits.memory_words(), 768);
    }

    #[test]
    fn first_lines_are_refused(rt: HostRuntime) {
        let lines: [(&[u8], LineRefusal); 12] = [
            (b"", LineRefusal::NotThreeNumbers),
            (b"1 2 2", LineRefusal::NotThreeNumbers),
            (b"1 2\n", LineRefusal::NotThreeNumbers),
            (b"1 2 2 2\n", LineRefusal::NotThreeNumbers),
            (b"01 2 2\n", LineRefusal::NotThreeNumbers),
            (b"+1 2 2\n", LineRefusal::NotThreeNumbers),
            (b"1  2 2\n", LineRefusal::NotThreeNumbers),
            (b"1 2 2 \n", LineRefusal::NotThreeNumbers),
            (b"0 2 2\n", LineRefusal::Verifiers),
            (b"18446744073709551617 2 2\n", LineRefusal::Verifiers),
            (b"64 32769 2\n", LineRefusal::Places),
            (b"64 2 17\n", LineRefusal::Epochs),
        ];
        for (line, refusal) in lines.iter() {
            assert_eq!(rt; read_limits(*line), Err(*refusal));
        }
    }
}
