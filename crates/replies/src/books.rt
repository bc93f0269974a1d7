// What a book holds.
ghost use Rattle.replies.specs.Replies.{SurveyReplies};

use crate::printed::Reply;
use output::{LINE, survey_line};
use refusal::Refusal;
use survey::{Facts, survey};

// The line for every book of which this was read.
pub fn survey_reply(book: &[u8], out: &mut [u8; LINE]) -> Reply<Result<Facts, Refusal>>
    ensures { SurveyReplies book.now out.old out.new result }
{
    let found = survey(book);
    let length = survey_line(found, out);
    Reply { length, found }
}
