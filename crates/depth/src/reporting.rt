// The depths of a macro's run, and the words of macros 0 to m.
ghost use Rattle.std.specs.Prelude.{◌≡◌};
ghost use Rattle.book.specs.Expansion.{expansion};
ghost use Rattle.book.specs.Reading.{macros_in, read_book};
ghost use Rattle.depth.specs.Answer.{depth_result, filled, outcome};
ghost use Rattle.depth.specs.Promises.{BookFits, InWords, MacroAt, MacroDepths, item_unmatched, unmatched_in};

use crate::unmatched::{Delimiters, Unmatched};
use crate::words::WIDTH;
use book::{Book, Item, space_for};
use refusal::Refusal;

// Work words that are enough for every book.
pub const MOST_WORDS: usize = 1024 * WIDTH;

// The depth at a run's end, and the lowest one.
#[derive(Clone, Copy)]
pub struct Depths {
    pub end: i64,
    pub lowest: i64,
}

// One item; a called macro's words stand in the work words.
#[tactic(auto, using(crate::proofs::CodeLaws::call_rules))]
fn of_item(item: Item, keys: Delimiters, work: &[u64]) -> Unmatched
    requires { InWords work.now item }
    ensures { result ≡ item_unmatched keys work.now item }
{
    match item {
        Item::Key(k) => Unmatched::of_key(keys, k),
        Item::Call(j) => Unmatched::load(work, j as usize * WIDTH),
    }
}

// The run of macro i, whose calls go to macros whose words stand already. No trait over what is kept: `macro_extent` of `find` says why.
fn of_macro(book: &Book, i: usize, keys: Delimiters, work: &[u64]) -> Unmatched
    requires { MacroAt keys book.now.bytes.now book.now.offsets i work.now }
    ensures { result ≡ unmatched_in keys.opening keys.closing (expansion (macros_in book.now.bytes.now) i) }
{
    let items = book.items(i);
    let mut all = Unmatched::NONE;
    for next in items.as_slice() {
        let passes = of_item(next.item, keys, work).repeated(next.times);
        all = all.followed_by(passes);
    }
    all
}

// The words of macros 0 to m, in turn. The book, the keys and the work words stay parameters: in a struct, each method that passes them on
// would have to promise that it keeps the loan of the words.
fn fill(book: &Book, m: usize, keys: Delimiters, work: &mut [u64])
    requires { BookFits keys book.now.bytes.now book.now.offsets m work.old }
    ensures { work.new ≡ filled keys.opening keys.closing (macros_in book.now.bytes.now) m work.old }
{
    for i in 0..=m {
        let run = of_macro(book, i, keys, work);
        run.store(work, i * WIDTH);
    }
}

// Macro m of a sound book, where the work words suffice.
fn depths_in(book: &Book, m: usize, keys: Delimiters, work: &mut [u64]) -> Result<Depths, Refusal>
    requires { BookFits keys book.now.bytes.now book.now.offsets m work.old }
    ensures { MacroDepths keys (macros_in book.now.bytes.now) m work.old work.new result }
{
    fill(book, m, keys, work);
    let run = Unmatched::load(work, m * WIDTH);
    if Unmatched::LONGEST < run.length {
        return Err(Refusal::RunTooLong);
    }
    let openings = run.openings as i64;
    let closings = run.closings as i64;
    Ok(Depths {
        end: openings - closings,
        lowest: -closings,
    })
}

// The depth at the end of macro m's run, and the lowest depth at any point of it, where `opening` and `closing` are the keys that open and
// close a block (document 02, S-6). The first 3 × (m + 1) work words then hold run length, end and lowest depth of macros 0 to m, also
// where m's own run is too long.
pub fn depth(
    book: &[u8],
    opening: u8,
    closing: u8,
    m: usize,
    work: &mut [u64],
) -> Result<Depths, Refusal>
    ensures { outcome result work.new ≡ depth_result opening closing (read_book book.now) m work.old }
{
    let keys = Delimiters { opening, closing };
    if keys.are_invalid() {
        return Err(Refusal::InvalidDelimiters);
    }
    let book = Book::open(book)?;
    space_for(book.macros as usize, m, WIDTH, work.len())?;
    depths_in(&book, m, keys, work)
}
