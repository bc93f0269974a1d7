// The count over a book.
ghost use Rattle.std.specs.Prelude.{◌≡◌};
ghost use Rattle.book.specs.Reading.{macros_in, read_book, version_in};
ghost use Rattle.pattern.specs.Reader.{read_pattern};
ghost use Rattle.counter.specs.Answers.{outcome};
ghost use Rattle.counter.specs.Counting.{count_result, steps_in};
ghost use Rattle.counter.specs.Promises.{BookCounted, Filled, MacroFits};

use crate::items::items_report;
use book::{Book, space_for};
use letters::Case;
use pattern::{Tables, read_pattern};
use refusal::Refusal;
use reports::{BEHIND_ROWS, in_report, load, store, total_in};

// Work words that are enough for every book and pattern: the reports of 1,024 macros with 32 states.
pub const MOST_WORDS: usize = 1024 * (32 + BEHIND_ROWS);

// How many lines match, and the steps.
#[derive(Clone, Copy)]
pub struct Count {
    pub lines: u64,
    pub steps: u64,
}

// Macros 0 to m in turn: each calls only those whose reports stand already. Answers the steps. No trait over what is kept: `macro_extent` of `find`
// says why.
fn fill(book: &Book, m: usize, tables: &Tables, work: &mut [u64]) -> u64
    requires { MacroFits book.now.bytes.now book.now.offsets m tables.now.accepting work.old }
    ensures { Filled tables.now.keys tables.now.enter tables.now.accepting (macros_in book.now.bytes.now) m work.old work.new result }
{
    let width = tables.accepting.states + BEHIND_ROWS;
    let mut steps = 0;
    for i in 0..=m {
        let items = book.items(i);
        let r = items_report(items.as_slice(), work, tables);
        steps += r.steps;
        store(work, i * width, r.report);
    }
    steps
}

// The steps that are answered: they belong to version 1 alone (document 02, S-8).
fn steps_for(version: u16, steps: u64) -> u64
    ensures { result ≡ steps_in version steps }
{
    if version == 1 { steps } else { 0 }
}

// Macro m of a sound book, where the work words suffice.
fn counted_macro(book: &Book, m: usize, tables: &Tables, work: &mut [u64]) -> Result<Count, Refusal>
    requires { MacroFits book.now.bytes.now book.now.offsets m tables.now.accepting work.old }
    ensures { BookCounted (version_in book.now.bytes.now) tables.now.keys tables.now.enter tables.now.accepting (macros_in book.now.bytes.now) m work.old work.new result }
{
    let counted = fill(book, m, tables, work);
    let steps = steps_for(book.version(), counted);
    let p = tables.accepting;
    let at = m * (p.states + BEHIND_ROWS);
    let report = load(work, at, p.states as u64);
    match total_in(in_report(report), p) {
        Some(lines) => Ok(Count { lines, steps }),
        None => Err(Refusal::CountOverflow),
    }
}

// How many lines of macro m's run match a pattern, with case ignored or not, and the steps, 0 in version 2 (document 01, "States and
// steps", "Reports", "Refused"; document 02, S-8). The first (m + 1) × (s + 6) work words then hold the reports of macros 0 to m. No struct of the
// book, the pattern, the case and m here or in `find`: it would be made at each call, and taken apart in its first lines.
pub fn count_book(
    book: &[u8],
    pattern: &[u8],
    case: Case,
    m: usize,
    work: &mut [u64],
) -> Result<Count, Refusal>
    ensures { outcome result work.new ≡ count_result case (version_in book.now) (read_book book.now) (read_pattern pattern.now) m work.old }
{
    let opened = Book::open(book)?;
    let tables = read_pattern(pattern, case)?;
    let width = tables.accepting.states + BEHIND_ROWS;
    space_for(opened.macros as usize, m, width, work.len())?;
    counted_macro(&opened, m, &tables, work)
}
