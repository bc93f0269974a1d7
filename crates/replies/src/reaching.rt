// The reach list of the macro that a command asks for.
ghost use Rattle.replies.specs.Replies.{ReachReplies};

use crate::printed::Reply;
use command::Asked;
use output::{LISTING, reached_lines};
use refusal::Refusal;
use survey::{LIST, reach_asked};

// The lines for every book of which this was read; none if the macro's text is no number. The list is lent.
pub fn reach_reply(
    book: &[u8],
    asked: Asked,
    list: &mut [u16; LIST],
    out: &mut [u8; LISTING],
) -> Option<Reply<Result<usize, Refusal>>>
    ensures { ReachReplies book.now asked.entry list.old list.new out.old out.new result }
{
    let found = reach_asked(book, asked, list)?;
    let length = reached_lines(found, list, out);
    Some(Reply { length, found })
}
