// `count CASE PATTERN BOOK [MACRO]`.
use crate::arguments::{NUMBER, asked_at, book_at, case_at, pattern_at};
use crate::meaning::explain;
use crate::say;
use command::{BOOK_READ, PATTERN_READ};
use counter::Case;
use output::{LINE, write_front};
use replies::count_reply;

// Counts with this choice of case.
// Not inlined: the buffers of all verbs in one frame would need more than 1 MiB of stack.
#[inline(never)]
fn count_by(rt: &HostRuntime, case: Case) {
    let mut given = [0; PATTERN_READ];
    let pattern = pattern_at(rt, 3, &mut given);
    let mut space = [0; BOOK_READ];
    let Some(book) = book_at(rt, 4, &mut space) else {
        return;
    };
    let mut digits = [0; NUMBER];
    let Some(asked) = asked_at(rt, 5, &mut digits) else {
        return;
    };
    let mut out = [0; LINE];
    match count_reply(book, pattern, case, asked, &mut out) {
        Some(reply) => {
            write_front(rt, &out, reply.length);
            explain(rt, reply.found.err());
        }
        None => say::no_number(rt),
    }
}

pub(crate) fn count(rt: &HostRuntime) {
    match case_at(rt, 2) {
        Some(case) => count_by(rt, case),
        None => say::usage(rt),
    }
}
