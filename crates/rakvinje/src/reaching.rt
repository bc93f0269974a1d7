// `reach BOOK [MACRO]`.
use crate::arguments::{NUMBER, asked_at, book_at};
use crate::meaning::explain;
use crate::say;
use command::BOOK_READ;
use output::{LISTING, write_front};
use replies::reach_reply;
use survey::LIST;

// Not inlined: the buffers of all verbs in one frame would need more than 1 MiB of stack.
#[inline(never)]
pub(crate) fn reach(rt: &HostRuntime) {
    let mut space = [0; BOOK_READ];
    let Some(book) = book_at(rt, 2, &mut space) else {
        return;
    };
    let mut digits = [0; NUMBER];
    let Some(asked) = asked_at(rt, 3, &mut digits) else {
        return;
    };
    let mut list = [0; LIST];
    let mut out = [0; LISTING];
    match reach_reply(book, asked, &mut list, &mut out) {
        Some(reply) => {
            write_front(rt, &out, reply.length);
            explain(rt, reply.found.err());
        }
        None => say::no_number(rt),
    }
}
