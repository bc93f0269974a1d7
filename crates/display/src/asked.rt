// The line that the command is asked for, in the macro that it names or in the last one.
ghost use Rattle.std.specs.Prelude.{◌≡◌, []};
ghost use Rattle.refusal.specs.Number.{number};
ghost use Rattle.book.specs.Reading.{read_book};
ghost use Rattle.pattern.specs.Reader.{read_pattern};
ghost use Rattle.find.specs.Answer.{locate_result};
ghost use Rattle.display.specs.Asked.{Answers, LinesAsked, line_answer, told_by, unwritten};

use command::Asked;
use find::{FoundLine, MOST_WORDS, find_line, locate_line};
use letters::Case;
use refusal::Refusal;

// The bytes of the buffer that the command lends: longer lines are not shown.
pub const BUFFER: usize = 65536;

// Where a line is: one whose keys stand at the front of the buffer, or one that is longer than the buffer.
#[derive(Clone, Copy)]
pub enum LineAnswer {
    Shown(FoundLine),
    Long(FoundLine),
}

// What is told where no line is written: where the line is, if the buffer is too short for it.
fn unwritten_in(
    book: &[u8],
    pattern: &[u8],
    case: Case,
    m: usize,
    k: u64,
    r: Refusal,
    work: &mut [u64; MOST_WORDS],
) -> Result<LineAnswer, Refusal>
    ensures { told_by result [] ≡ unwritten (number r) (locate_result case (read_book book.now) (read_pattern pattern.now) m k work.old) }
{
    if r != Refusal::BufferTooShort {
        return Err(r);
    }
    let found = locate_line(book, pattern, case, m, k, work)?;
    Ok(LineAnswer::Long(found))
}

// The k-th matching line of macro m's run, from 1, with work words for every book.
fn line_in(
    book: &[u8],
    pattern: &[u8],
    case: Case,
    m: usize,
    k: u64,
    line: &mut [u8; BUFFER],
) -> Result<LineAnswer, Refusal>
    ensures { Answers (line_answer case book.now pattern.now m k) line.old line.new result }
{
    let mut work = [0; MOST_WORDS];
    match find_line(book, pattern, case, m, k, &mut work, line) {
        Ok(found) => Ok(LineAnswer::Shown(found)),
        Err(r) => unwritten_in(book, pattern, case, m, k, r, &mut work),
    }
}

// That of the macro that is asked for, in every book and under every pattern of which this was read; none if the macro's text is no number.
pub(crate) fn line_asked(
    book: &[u8],
    pattern: &[u8],
    case: Case,
    k: u64,
    asked: Asked,
    line: &mut [u8; BUFFER],
) -> Option<Result<LineAnswer, Refusal>>
    ensures { LinesAsked book.now pattern.now case k asked.entry line.old line.new result }
{
    let m = asked.number_in(book)?;
    Some(line_in(book, pattern, case, m, k, line))
}
