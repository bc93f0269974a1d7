// The lines of a run: the moves of a set of states over keys, the one-line test, the count over a plain run.
#![tactic(auto)]

mod line;
mod moves;
mod run;

pub use line::test_line;
pub use moves::advance;
pub use run::count_run;
