// The reach list of the macro that a command asks for.
ghost use Rattle.survey.specs.Reached.{ReachesAsked};

use command::Asked;
use reach::reach_list;
use refusal::Refusal;

// The entries of a list that is long enough for every macro.
pub const LIST: usize = 1024;

// How many macros the one that is asked for reaches, in every book of which this was read; none if the macro's text is no number.
pub fn reach_asked(
    book: &[u8],
    asked: Asked,
    list: &mut [u16; LIST],
) -> Option<Result<usize, Refusal>>
    ensures { ReachesAsked book.now asked.entry result list.old list.new }
{
    let m = asked.number_in(book)?;
    Some(reach_list(book, m, list))
}
