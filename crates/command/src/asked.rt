// The macro that is asked for.
ghost use Rattle.std.specs.Prelude.{◌≡◌};
ghost use Rattle.command.specs.Asked.{asked_number};

use crate::last::last_macro;
use decimals::number_in;

// The last macro of a book, or the one whose number a text has in decimal digits. No Option of a text: without one, a macro is asked for, too.
#[derive(Clone, Copy)]
pub enum Asked<'a> {
    Last,
    Named(&'a [u8]),
}

impl Asked<'_> {
    // Its number in a book; none if the text is no number.
    pub fn number_in(self, book: &[u8]) -> Option<usize>
        ensures { result ≡ asked_number self.entry book.now }
    {
        match self {
            Asked::Last => Some(last_macro(book)),
            Asked::Named(text) => number_in(text),
        }
    }
}
