// What the programs do with their input: `cuecount`'s one input, and the books and patterns that a command counts.
#![tactic(auto)]

mod asked;
mod buffer;
mod counts;
mod input;
mod last;

pub use asked::Asked;
pub use buffer::{BOOK_READ, PATTERN_READ, read_part};
pub use counts::count_asked;
pub use input::{READ, answer};
pub use last::last_macro;
