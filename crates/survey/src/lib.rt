// What the command says about a book: whether it is sound and what it holds, which macros a macro reaches, and whether blocks are closed.
#![tactic(auto)]

mod depths;
mod facts;
mod reached;

pub use depths::{depth_asked, key_in};
pub use facts::{Facts, survey};
pub use reached::{LIST, reach_asked};
