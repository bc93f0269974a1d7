// `check BOOK`.
use crate::arguments::book_at;
use crate::meaning::explain;
use command::BOOK_READ;
use output::{LINE, write_front};
use replies::survey_reply;

// Not inlined: the buffers of all verbs in one frame would need more than 1 MiB of stack.
#[inline(never)]
pub(crate) fn check_book(rt: &HostRuntime) {
    let mut space = [0; BOOK_READ];
    let Some(book) = book_at(rt, 2, &mut space) else {
        return;
    };
    let mut out = [0; LINE];
    let reply = survey_reply(book, &mut out);
    write_front(rt, &out, reply.length);
    explain(rt, reply.found.err());
}
