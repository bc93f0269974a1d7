// How far runs go, in line ends and keys, with numbers that stop at 2^64 - 1 (document 02, S-3): of one key, of runs one behind the other, of a
// repeated run, and as four work words.
#![tactic(auto)]

mod extent;
mod words;

pub use extent::{Extent, joined_extents, key_extent, no_extent, repeated_extent};
pub use words::{WIDTH, load_extent, store_extent};
