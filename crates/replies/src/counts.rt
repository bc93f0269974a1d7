// Counts: of `cuecount`'s input, and of the macro that a command asks for.
ghost use Rattle.replies.specs.Replies.{CountReplies, ProgramReplies};

use crate::printed::Reply;
use command::{Asked, answer, count_asked};
use counter::{Case, Count};
use output::{LINE, count_line};
use refusal::Refusal;

// `cuecount`: the line for every input of which this was read. Answers its length.
pub fn program_reply(input: &[u8], out: &mut [u8; LINE]) -> usize
    ensures { ProgramReplies input.now out.old out.new result }
{
    count_line(answer(input), out)
}

// The line for the macro that is asked for, in every book and under every pattern of which this was read; none if the macro's text is no number.
pub fn count_reply(
    book: &[u8],
    pattern: &[u8],
    case: Case,
    asked: Asked,
    out: &mut [u8; LINE],
) -> Option<Reply<Result<Count, Refusal>>>
    ensures { CountReplies book.now pattern.now case asked.entry out.old out.new result }
{
    let found = count_asked(book, pattern, case, asked)?;
    let length = count_line(found, out);
    Some(Reply { length, found })
}
