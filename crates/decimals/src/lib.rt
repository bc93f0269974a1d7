// Numbers in decimal digits, read and written, and texts in a buffer.
#![tactic(auto)]

mod number;
mod text;
mod wide;

pub use number::number_in;
pub use text::{Draft, put_number, put_text};
pub use wide::wide_in;
