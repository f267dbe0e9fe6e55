// What of a right entry is to be summed.

#[derive(Clone, Copy)]
pub enum Effect {
    Nothing,
    // an element of this epoch was added, with this hash
    Added(u64, [u64; 4]),
    // an element of this epoch was evicted, with this hash
    Evicted(u64, [u64; 4]),
}
