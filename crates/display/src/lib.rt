// Lines of a macro's run, shown so that a terminal is safe (document 02, S-3).
#![tactic(auto)]

mod asked;
mod keys;
mod reply;
mod text;

pub use asked::{BUFFER, LineAnswer};
pub use reply::line_reply;
pub use text::SHOWN;
