// What is found of an entry that may be done, and why one may not.
use path::{Path, Side};

// The first condition that fails, in the order in which an entry's rule has them.
#[derive(Clone, Copy)]
pub enum Failure {
    // the record isn't in the store
    NotStored,
    // there is no node at the path above it
    NoNodeAbove,
    // its path isn't below the node's
    NotBelow,
    // the record is in the store already
    AlreadyStored,
    // the node above knows something else on its side
    PointerDiffers,
    // something that it points at is in the store, added by Merkle
    ChildStored,
    // the key has another value
    ValueDiffers,
    // it is the root, which isn't added or evicted by Blum
    IsRoot,
    // it was added by Blum where the entry has it by Merkle, or the other way round
    AddedOtherwise,
    // the timestamp, with the path, isn't later than the clock with the path evicted last
    NotLater,
    // the verifier is done with that epoch
    EpochDone,
    // the clock is still in the epoch that the verifier would be done with
    ClockBehind,
    // a counter or an epoch in 64 bits has no next
    OutOfTime,
}

// Where a record is, where the node above it is, and on which side of that.
#[derive(Clone, Copy)]
pub struct Edge {
    pub slot: usize,
    pub above: usize,
    pub side: Side,
}

// What is told of a record that is to be added by Merkle: its path, whether it is as every record is at first, whether it is a
// node's, and what its hash is taken over.
#[derive(Clone, Copy)]
pub struct Candidate<'a> {
    pub path: Path,
    pub is_initial: bool,
    pub of_node: bool,
    pub merkle_bytes: &'a [u8],
}

// In which way a record is added by Merkle.
#[derive(Clone, Copy)]
pub enum Way {
    // nothing on its side was in use
    First,
    // it was evicted by Merkle with this hash, which is its own
    Again([u64; 4]),
    // a new node over what the node above knew: that path, hash, and whether it is in Blum
    Between(Path, [u64; 4], bool),
}

// Where the node above is, on which side of it, and in which way.
#[derive(Clone, Copy)]
pub struct Adding {
    pub above: usize,
    pub side: Side,
    pub way: Way,
}
