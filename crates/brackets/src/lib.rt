// Atoms of a pattern (document 01, "Patterns"): a byte, `.`, an escaped mark or a bracket is read at a cursor, and its keys get
// states into their words.
#![tactic(auto)]

mod atom;
mod bracket;
mod class;
mod cursor;
mod element;
mod look;
mod set;

pub use cursor::AtomCursor;
pub use look::peek;
