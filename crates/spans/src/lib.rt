// What runs do to the states of a pattern: spans of the empty run, with one key more, joined; and what a span's two ends count.
#![tactic(auto)]

mod edges;
mod ends;
mod joining;
mod key;
mod pairs;
mod rows;
mod span;

pub use ends::end_lines;
pub use joining::join_spans;
pub use key::extended_span;
pub use pairs::pairs_in;
pub use span::{Edges, JoinedSpan, Span, empty_span};
