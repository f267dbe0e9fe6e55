// An input, with the part of it that is held in a buffer of fixed size.
ghost use Rattle.std.specs.Prelude.{◌≡◌, ℕ, ◌+◌, ◌-◌, ◌<◌, ◌≤◌, true, min, length, take, IfOk, IfErr, OnOk, slice_index, slice_range, vec_len};
ghost use Rattle.checking.specs.Checked.{is_io};

use crate::error::CheckError;
use std::alloc::Global;
use std::io::{ErrorKind, Read};

pub const BUFFER_BYTES: usize = 1_048_576;

// buf[at..end] is read and not yet taken. An event is taken as one slice; what a `BufReader` lends ends where a read ended.
#[derive(Drop)]
pub struct Input<'a, R> {
    name: &'a str,
    source: R,
    buf: Vec<u8>,
    at: usize,
    end: usize,
    ghost whole: { vec_len buf ≡ 1048576 },
    ghost ordered: { at ≤ end },
    ghost inside: { end ≤ 1048576 },
}

impl<'a, R: Read + Drop> Input<'a, R> {
    pub fn new(alloc: Global, name: &'a str, source: R) -> Result<Input<'a, R>, CheckError<'a>> {
        let buf = vec![in alloc; 0u8; BUFFER_BYTES].map_err(|_| CheckError::NoMemoryToRead(name))?;
        Ok(Input {
            name,
            source,
            buf,
            at: 0,
            end: 0,
        })
    }

    pub fn name(&self) -> &'a str {
        self.name
    }

    // What is held.
    pub fn held(&self) -> &[u8]
        ensures { result.now ≡ slice_range self.now.buf.items self.now.at self.now.end }
    {
        &self.buf[self.at..self.end]
    }

    // Takes the first n bytes of what is held, or all where it has fewer, and returns how many these are.
    pub fn consume(&mut self, n: usize) -> usize
        ensures taken { result ≡ min n (self.old.end - self.old.at) }
        ensures start { self.new.at ≡ self.old.at + result }
        ensures end { self.new.end ≡ self.old.end }
        ensures bytes { self.new.buf ≡ self.old.buf }
    {
        let taken = n.min(self.end - self.at);
        self.at += taken;
        taken
    }

    // Reads until at least `wanted` bytes are held, or the input ends.
    pub fn fill(&mut self, wanted: usize) -> Result<(), CheckError<'a>>
        ensures { IfErr result (λ e. is_io e ≡ true) }
    {
        if wanted > BUFFER_BYTES - self.at {
            self.move_to_front();
        }
        while self.end - self.at < wanted {
            if self.read_once()? == 0 {
                break;
            }
        }
        Ok(())
    }

    // Takes the next n bytes, or all to the input's end.
    pub fn skip(&mut self, n: usize) -> Result<(), CheckError<'a>>
        ensures { IfErr result (λ e. is_io e ≡ true) }
    {
        let mut left = n - self.consume(n);
        while left > 0 {
            self.move_to_front();
            if self.read_once()? == 0 {
                break;
            }
            left -= self.consume(left);
        }
        Ok(())
    }

    // Moves what is held to the buffer's front.
    fn move_to_front(&mut self)
        ensures start { self.new.at ≡ 0 }
        ensures end { self.new.end ≡ self.old.end - self.old.at }
        ensures bytes { (k : ℕ) → k < self.old.end - self.old.at → slice_index self.new.buf.items k ≡ slice_index self.old.buf.items (self.old.at + k) }
    {
        self.buf.copy_within(self.at..self.end, 0);
        self.end -= self.at;
        self.at = 0;
    }

    // One read behind what is held, which stays. Returns how many bytes came: none at the input's end.
    fn read_once(&mut self) -> Result<usize, CheckError<'a>>
        ensures start { self.new.at ≡ self.old.at }
        ensures end { IfOk result (λ n. self.new.end ≡ self.old.end + n) }
        ensures failed { IfErr result (λ e. is_io e ≡ true) }
        ensures bytes { take self.old.end self.new.buf.items ≡ take self.old.end self.old.buf.items }
    {
        // Reading on while interrupted has no measure. No machine is interrupted as often as this.
        for _ in 0..u64::MAX {
            match self.source.read(&mut self.buf[self.end..]) {
                Ok(n) => {
                    self.end += n;
                    return Ok(n);
                }
                Err(e) if e.kind() == ErrorKind::Interrupted => {}
                Err(e) => return Err(CheckError::Io(self.name, e)),
            }
        }
        Ok(0)
    }
}
