// The macro book of documents 01 and 02, in versions 1 and 2: its check, where its macros stand, their items, a macro's body, and
// whether an operation has its macro and its work words.
#![tactic(auto)]

mod answers;
mod item;
mod layout;
mod macro_items;
mod number;
mod space;
mod version;

pub use answers::{body, check};
pub use item::{Item, Repeated, item_of};
pub use layout::Book;
pub use macro_items::Items;
pub use space::space_for;
pub use version::version_of;
