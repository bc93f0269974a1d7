// The depth of blocks along a macro's run (document 02, S-6).
#![tactic(auto)]

mod reporting;
mod unmatched;
mod words;

pub use reporting::{Depths, MOST_WORDS, depth};
pub use unmatched::Delimiters;
