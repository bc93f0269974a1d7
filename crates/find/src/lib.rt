// The k-th matching line of a macro's run (document 02, S-3): where it is, and its keys, though the run is never written out.
#![tactic(auto)]

mod descent;
mod filling;
mod finding;
mod passes;
mod writing;

pub use finding::{FoundLine, MOST_WORDS, find_line, locate_line};
