// What the command for people answers to a count: it takes any book, and has work words for each of them.
ghost use Rattle.command.specs.Reads.{CountsAsked};

use crate::asked::Asked;
use crate::buffer::{BOOK_READ, PATTERN_READ};
use counter::{Count, MOST_WORDS, count_book};
use letters::Case;
use refusal::Refusal;

// How many lines of the run of the macro that is asked for match the pattern, and the steps, in every book and under every pattern of which
// this was read; none if the macro's text is no number.
pub fn count_asked(
    book: &[u8],
    pattern: &[u8],
    case: Case,
    asked: Asked,
) -> Option<Result<Count, Refusal>>
    ensures { CountsAsked BOOK_READ PATTERN_READ book.now pattern.now case asked.entry result }
{
    let m = asked.number_in(book)?;
    let mut work = [0; MOST_WORDS];
    Some(count_book(book, pattern, case, m, &mut work))
}
