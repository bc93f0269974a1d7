// Reads a file or standard input into a buffer, for every program, and says what failed.
#![tactic(auto)]

mod failure;
mod reading;

pub use failure::say_failure;
pub use reading::{Filled, fill, read_path, read_standard};
