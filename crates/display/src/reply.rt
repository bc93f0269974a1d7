// What is printed for a line of the run of the macro that a command asks for.
ghost use Rattle.display.specs.Replies.{LineReplies};

use crate::asked::{BUFFER, LineAnswer, line_asked};
use crate::text::{SHOWN, line_text};
use command::Asked;
use letters::Case;
use refusal::Refusal;
use replies::Reply;

// What is printed for the k-th matching line, in every book and under every pattern of which this was read; none if the macro's text is no
// number. The buffer for the line's keys is lent.
pub fn line_reply(
    book: &[u8],
    pattern: &[u8],
    case: Case,
    k: u64,
    asked: Asked,
    line: &mut [u8; BUFFER],
    out: &mut [u8; SHOWN],
) -> Option<Reply<Result<LineAnswer, Refusal>>>
    ensures { LineReplies book.now pattern.now case k asked.entry line.old line.new out.old out.new result }
{
    let found = line_asked(book, pattern, case, k, asked, line)?;
    let length = line_text(found, line, out);
    Some(Reply { length, found })
}
