// What is asked of a whole book.
ghost use Rattle.std.specs.Prelude.{◌≡◌};
ghost use Rattle.book.specs.Reading.{read_book, version_in};
ghost use Rattle.book.specs.Answer.{body_at, body_of, check_result, checked_figures, require_macro, refusal_of};

use crate::layout::{Book, lay_out};
use refusal::{Refusal, code};

// Whether a book is sound (document 01, "The book"): its macro count, or the first fault in reading order.
pub fn check(book: &[u8]) -> Result<u16, Refusal>
    ensures { checked_figures result ≡ check_result (read_book book.now) }
{
    let mut offsets = [0; 1025];
    lay_out(book, &mut offsets)
}

// The body of macro m, as that part of the book; the refusal's number goes to `refused`, 0 if there is none. Document 01, "Refused", has
// the part and the lent number.
pub fn body<'a>(book: &'a [u8], m: usize, refused: &mut u8) -> &'a [u8]
    ensures part { result.now ≡ body_of book.now (version_in book.now) m (require_macro m book.now) }
    ensures offset { result.ref_ptr ≡ body_at book.entry.ref_ptr (version_in book.now) m (require_macro m book.now) }
    ensures number { refused.new ≡ refusal_of (require_macro m book.now) }
{
    let mut found = Book {
        bytes: book,
        macros: 0,
        offsets: [0; 1025],
    };
    match lay_out(book, &mut found.offsets) {
        Err(r) => {
            *refused = code(r);
            &book[..0]
        }
        Ok(macros) => {
            if macros as usize <= m {
                *refused = code(Refusal::NoSuchMacro);
                return &book[..0];
            }
            *refused = 0;
            found.part(m)
        }
    }
}
