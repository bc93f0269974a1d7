// The version of a book, and what goes by it (document 02, S-8).
ghost use Rattle.std.specs.Prelude.{◌≡◌};
ghost use Rattle.runs.specs.Keys.{member};
ghost use Rattle.book.specs.Format.{versions, width};
ghost use Rattle.book.specs.Reading.{version_in};

use crate::number::le16_at;

// The version that a book's bytes give, 0 where they do not reach so far.
pub fn version_of(book: &[u8]) -> u16
    ensures { result ≡ version_in book.now }
{
    if book.len() < 5 {
        return 0;
    }
    le16_at(book, 3)
}

// Whether books of a version are read.
pub(crate) fn is_taken(version: u16) -> bool
    ensures { result ≡ member version versions }
{
    (version == 1) | (version == 2)
}

// How many bytes an item has.
pub(crate) fn width_of(version: u16) -> usize
    ensures { result ≡ width version }
{
    if version == 1 { 2 } else { 4 }
}
