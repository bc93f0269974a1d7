// The depths of the macro that a command asks for.
ghost use Rattle.replies.specs.Replies.{DepthReplies};

use crate::printed::Reply;
use command::Asked;
use depth::{Delimiters, Depths};
use output::{LINE, depth_line};
use refusal::Refusal;
use survey::depth_asked;

// The line for every book of which this was read; none if the macro's text is no number.
pub fn depth_reply(
    book: &[u8],
    keys: Delimiters,
    asked: Asked,
    out: &mut [u8; LINE],
) -> Option<Reply<Result<Depths, Refusal>>>
    ensures { DepthReplies book.now keys asked.entry out.old out.new result }
{
    let found = depth_asked(book, keys, asked)?;
    let length = depth_line(found, out);
    Some(Reply { length, found })
}
