// What a node knows of one side, by value and with its path packed; what is read of an event lends its bytes instead (`reader::Pointer`).
// An enum of its own and no Option, here and there: the cases of a child pointer have the definitions' names.
use path::Path;

#[derive(Clone, Copy)]
pub enum Child {
    Absent,
    // the path that it points at, the hash, and whether it was evicted by Blum
    Present(Path, [u64; 4], bool),
}
