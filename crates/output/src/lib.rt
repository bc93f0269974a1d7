// The lines of answers, in a buffer, and the one write that is then left.
#![tactic(auto)]

mod depths;
mod facts;
mod line;
mod list;
mod writing;

pub use depths::depth_line;
pub use facts::survey_line;
pub use line::{LINE, count_line, refused_line};
pub use list::{LISTING, reached_lines};
pub use writing::write_front;
