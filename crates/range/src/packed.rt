// What an entry names, by value.
use path::Path;
use slot::child::Child;

// The paths and child pointers that an entry names, packed; the root and absent where it names none.
// No Option for each: whoever reads one knows from the entry that it is named.
// A key's path is not among them: an entry that is refused has nothing hashed.
#[derive(Clone, Copy)]
pub struct Packed {
    pub path: Path,
    pub above: Path,
    pub left: Child,
    pub right: Child,
}
