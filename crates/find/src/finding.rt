// The k-th matching line of a macro's run: where it is, and its keys.
ghost use Rattle.std.specs.Prelude.{◌≡◌};
ghost use Rattle.book.specs.Expansion.{expansion};
ghost use Rattle.book.specs.Reading.{macros_in, read_book};
ghost use Rattle.book.specs.Steps.{InBook};
ghost use Rattle.pattern.specs.Reader.{read_pattern};
ghost use Rattle.find.specs.Answer.{find_result, locate_result, outcome, placed};
ghost use Rattle.find.specs.Promises.{LineFits, WritesLine, has_line, numbered_at, placing, placing_of};

use crate::descent::{Located, Search};
use crate::filling::fill_extents;
use crate::writing::{Pen, write_macro};
use book::{Book, space_for};
use counter::{Count, count_book};
use extents::WIDTH;
use letters::Case;
use pattern::read_pattern;
use refusal::Refusal;
use reports::BEHIND_ROWS;

// Work words that are enough for every book and pattern: 1,024 macros with 32 states.
pub const MOST_WORDS: usize = 1024 * (32 + BEHIND_ROWS + WIDTH);

// The number of a line, and how many keys it has.
#[derive(Clone, Copy)]
pub struct FoundLine {
    pub number: u64,
    pub length: u64,
}

// A line, with how many of its keys are told of, and where the extents stand in the work words.
#[derive(Clone, Copy)]
struct LinePlace {
    line: FoundLine,
    base: usize,
}

// Whether so many lines match that there is a k-th.
#[tactic(auto, unfolding(crate::specs::Promises::has_line))]
fn has_line(count: Result<Count, Refusal>, k: u64) -> bool
    ensures { result ≡ has_line count k }
{
    match count {
        Ok(count) => (1..=count.lines).contains(&k),
        Err(_) => 1 <= k,
    }
}

// The number of a line that is located, or 16.
#[tactic(auto, unfolding(crate::specs::Promises::numbered_at))]
fn numbered(line: Located) -> Result<FoundLine, Refusal>
    ensures { result ≡ numbered_at line }
{
    let number = line.ends.checked_add(1).ok_or(Refusal::LineNumberOverflow)?;
    Ok(FoundLine {
        number,
        length: line.length,
    })
}

// Where the line is in a sound book: 7 to 11, 15 and 16 of the table, in that order. The count writes the reports, and behind them stand the
// extents.
fn placed_line(
    book: &Book,
    pattern: &[u8],
    case: Case,
    m: usize,
    k: u64,
    work: &mut [u64],
) -> Result<LinePlace, Refusal>
    requires { InBook book.now.bytes.now book.now.offsets book.now.macros }
    ensures { placing result work.new ≡ placing_of case (read_book book.now.bytes.now) (read_pattern pattern.now) m k work.old }
{
    let tables = read_pattern(pattern, case)?;
    let width = tables.accepting.states + BEHIND_ROWS;
    space_for(book.macros as usize, m, width + WIDTH, work.len())?;
    let base = (m + 1) * width;
    let count = count_book(book.bytes, pattern, case, m, work);
    let (reports, extents) = work.split_at_mut(base);
    fill_extents(book, m, extents);
    if !has_line(count, k) {
        return Err(Refusal::NoSuchLine);
    }
    let search = Search {
        tables: &tables,
        reports,
        extents,
        m,
        k,
    };
    let line = numbered(search.locate(book))?;
    Ok(LinePlace { line, base })
}

// The line with its keys at the front of the buffer, or 17.
fn written_line(
    book: &Book,
    m: usize,
    place: LinePlace,
    work: &[u64],
    buffer: &mut [u8],
) -> Result<FoundLine, Refusal>
    requires { LineFits book.now.bytes.now book.now.offsets m place work.now }
    ensures { WritesLine (expansion (macros_in book.now.bytes.now) m) place.line buffer.old buffer.new result }
{
    let line = place.line;
    if (buffer.len() as u64) < line.length {
        return Err(Refusal::BufferTooShort);
    }
    let pen = Pen {
        ends: line.number - 1,
        left: line.length as usize,
        at: 0,
    };
    write_macro(book, &work[place.base..], m, pen, buffer);
    Ok(line)
}

// Where the k-th matching line of macro m's run is: its number and how many keys it has, 2^64 - 2 if there are more.
pub fn locate_line(
    book: &[u8],
    pattern: &[u8],
    case: Case,
    m: usize,
    k: u64,
    work: &mut [u64],
) -> Result<FoundLine, Refusal>
    ensures { placed result work.new ≡ locate_result case (read_book book.now) (read_pattern pattern.now) m k work.old }
{
    let opened = Book::open(book)?;
    let place = placed_line(&opened, pattern, case, m, k, work)?;
    Ok(place.line)
}

// The k-th matching line of macro m's run, with its keys at the front of the buffer (document 02, S-3).
pub fn find_line(
    book: &[u8],
    pattern: &[u8],
    case: Case,
    m: usize,
    k: u64,
    work: &mut [u64],
    buffer: &mut [u8],
) -> Result<FoundLine, Refusal>
    ensures { outcome result work.new buffer.new ≡ find_result case (read_book book.now) (read_pattern pattern.now) m k work.old buffer.old }
{
    let opened = Book::open(book)?;
    let place = placed_line(&opened, pattern, case, m, k, work)?;
    written_line(&opened, m, place, work, buffer)
}
