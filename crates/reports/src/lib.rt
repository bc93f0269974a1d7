// Reports of runs: a span and the number of its closed lines, of the empty run, with one key more, joined, repeated, flat, as work
// words; and the count that it comes to.
#![tactic(auto)]

mod edges;
mod repetition;
mod report;
mod span_count;
mod total;
mod words;

pub use repetition::repeated;
pub use report::{BEHIND_ROWS, Report, in_report, join, report_of};
pub use span_count::{SpanCount, empty_count, extended, joined, total_in};
pub use total::sum;
pub use words::{load, store};
