// The count over a book; and, for whoever links the counter, the operations of document 01 from the crates below.
#![tactic(auto)]

mod counting;
mod items;

pub use book::{body, check};
pub use counting::{Count, MOST_WORDS, count_book};
pub use letters::Case;
pub use lines::{count_run, test_line};
pub use pattern::{Accepting, Tables, read_pattern};
pub use reach::reach_list;
pub use reports::{Report, join};
