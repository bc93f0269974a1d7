// The patterns of document 01: their form, their meaning and their reader.
#![tactic(auto)]

mod atom;
mod automaton;
mod branch;
mod branch_list;
mod clean;
mod cursor;
mod shape;
mod state;
mod summary;

pub use automaton::{Accepting, Tables, read_pattern};
pub use state::State;
