// Records by value: where a record is, and what it holds. What is read of an event lends its bytes instead (`reader::Record` and
// `reader::Contents`), paths and all.
ghost use Rattle.slot.specs.Meant.{IsNamed, IsNamed-prop, IsShort, IsShort-prop};

use crate::child::Child;
use path::Path;

// A node at its path, or a key at its own path; key and value have room in a slot.
#[derive(Clone, Copy)]
pub struct Record<'a> {
    pub path: Path,
    pub contents: Contents<'a>,
    ghost named: { IsNamed path contents } by { IsNamed-prop path contents },
    ghost short: { IsShort contents } by { IsShort-prop contents },
}

#[derive(Clone, Copy)]
pub enum Contents<'a> {
    // a node's child pointers, left and right
    Node(Child, Child),
    // a key, and its value if it has one
    Data(&'a [u8], Option<&'a [u8]>),
}
