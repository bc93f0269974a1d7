// The count of a book's last macro.
ghost use Rattle.std.specs.Prelude.{◌≡◌};
ghost use Rattle.book.specs.Reading.{read_book};
ghost use Rattle.counter.specs.Answers.{outcome};
ghost use Rattle.command.specs.Input.{last_macro, last_result};

use book::check;
use counter::{Count, count_book};
use letters::Case;
use refusal::Refusal;

// The number of the book's last macro; a book that is not sound has none, and is refused whatever is asked of it.
pub fn last_macro(book: &[u8]) -> usize
    ensures { result ≡ last_macro (read_book book.now) }
{
    match check(book) {
        Ok(n) => n as usize - 1,
        Err(_) => 0,
    }
}

// How many lines of the last macro's run match the pattern, and the steps.
pub(crate) fn last_in(
    book: &[u8],
    pattern: &[u8],
    case: Case,
    work: &mut [u64],
) -> Result<Count, Refusal>
    ensures { outcome result work.new ≡ last_result case book.now pattern.now work.old }
{
    count_book(book, pattern, case, last_macro(book), work)
}
