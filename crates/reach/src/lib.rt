// The reach list of documents 01 and 02: the numbers of the macros that a macro reaches, in running order.
#![tactic(auto)]

mod listing;

pub use listing::reach_list;
