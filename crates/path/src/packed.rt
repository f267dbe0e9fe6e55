// A path of up to 256 bits by value.
ghost use Rattle.std.specs.Prelude.{◌≡◌, ◌<◌, [], slice_index};
ghost use Rattle.model.specs.Records.{below, less_bytes, same_bytes, side};
ghost use Rattle.path.specs.Packs.{Packs, path_in};
ghost use Rattle.path.specs.Sides.{side_number};

use crate::Side;

#[derive(Clone, Copy)]
pub struct Path {
    pub len: usize,
    pub bits: [u64; 4],
    // no bit is set past the path: its words can then be compared whole
    ghost ok: { Packs len bits },
}

impl Path {
    // The empty path.
    pub fn root() -> Path
        ensures path { path_in result.len result.bits ≡ [] }
        ensures len { result.len ≡ 0 }
    {
        Path {
            len: 0,
            bits: [0; 4],
        }
    }

    // The bit at `i`, 0 past the path.
    pub fn bit(&self, i: usize) -> u64
        requires { i < 256 }
        ensures { result ≡ slice_index (path_in self.now.len self.now.bits) i }
    {
        crate::bit_of(&self.bits, i)
    }

    pub fn is_below(&self, q: &Path) -> bool
        ensures { result ≡ below (path_in self.now.len self.now.bits) (path_in q.now.len q.now.bits) }
    {
        crate::below_words(self.len, &self.bits, q.len, &q.bits)
    }

    // On which side of that path is this one?
    pub fn side_of(&self, q: &Path) -> Side
        ensures { side_number result ≡ side (path_in self.now.len self.now.bits) (path_in q.now.len q.now.bits) }
    {
        crate::side_words(self.len, &self.bits, q.len)
    }

    // Is this path before that one in the order of paths?
    // By functions and no derive, here and below: their contracts say it of the paths' bits, and the order is by the bits first.
    pub fn is_before(&self, q: &Path) -> bool
        ensures { result ≡ less_bytes (path_in self.now.len self.now.bits) (path_in q.now.len q.now.bits) }
    {
        crate::less_words(self.len, &self.bits, q.len, &q.bits)
    }

    pub fn is_same(&self, q: &Path) -> bool
        ensures { result ≡ same_bytes (path_in self.now.len self.now.bits) (path_in q.now.len q.now.bits) }
    {
        crate::same_paths(self.len, &self.bits, q.len, &q.bits)
    }
}
