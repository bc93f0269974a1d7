// What a program prints for what was read: from its input to the buffer that holds its lines.
#![tactic(auto)]

mod books;
mod counts;
mod depths;
mod printed;
mod reaching;

pub use books::survey_reply;
pub use counts::{count_reply, program_reply};
pub use depths::depth_reply;
pub use printed::Reply;
pub use reaching::reach_reply;
