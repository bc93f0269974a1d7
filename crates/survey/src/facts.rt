// Whether a book is sound, and what it holds.
ghost use Rattle.std.specs.Prelude.{◌≡◌, length};
ghost use Rattle.runs.specs.Counts.{sum_below};
ghost use Rattle.book.specs.MacroItems.{decoded, items_from};
ghost use Rattle.survey.specs.Facts.{Surveys};

use book::Book;
use refusal::Refusal;

// What a sound book holds.
#[derive(Clone, Copy)]
pub struct Facts {
    pub version: u16,
    pub macros: u16,
    // How many items all macros hold together.
    pub items: u64,
    pub bytes: u64,
}

// How many items the first n macros of a book hold together.
fn items_below(book: &Book, n: u16) -> u64
    ensures { result ≡ sum_below n (λ i. length (decoded (items_from book.now.bytes.now book.now.offsets i))) }
{
    let mut sum = 0;
    for i in 0..n {
        sum += book.item_count(usize::from(i)) as u64;
    }
    sum
}

// What every book holds of which this was read, or why it is refused.
pub fn survey(book: &[u8]) -> Result<Facts, Refusal>
    ensures { Surveys book.now result }
{
    let book = Book::open(book)?;
    Ok(Facts {
        version: book.version(),
        macros: book.macros,
        items: items_below(&book, book.macros),
        bytes: book.bytes.len() as u64,
    })
}
