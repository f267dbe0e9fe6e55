// Paths with a byte for each bit, and the paths of keys.
#![tactic(auto)]

mod keys;
mod packing;
mod unpacking;

pub use keys::key_path;
pub use packing::{are_bits, is_good_path, path_from_bits};
pub use unpacking::bits_into;
