// `depth OPEN CLOSE BOOK [MACRO]`.
use crate::arguments::{NUMBER, asked_at, book_at, key_at};
use crate::meaning::explain;
use crate::say;
use command::BOOK_READ;
use depth::{Delimiters, Depths};
use output::{LINE, write_front};
use refusal::Refusal;
use replies::depth_reply;

// Whether the blocks are closed: no closing comes where no block is open exactly if the lowest depth is 0 (`closings-opened` of `depth`),
// and no block is left open exactly if the run ends at its lowest depth (`openings-closed`).
fn explain_depths(rt: &HostRuntime, d: Depths) {
    let meaning = match (d.lowest == 0, d.end == d.lowest) {
        (true, true) =>
            "The blocks are closed: every opening has its closing, and every closing its opening.\n",
        (true, false) => "A block is left open: not every opening has its closing.\n",
        (false, true) => "A closing comes where no block is open; no block is left open.\n",
        (false, false) => "A closing comes where no block is open, and a block is left open.\n",
    };
    say::text(rt, meaning);
}

// What the depths mean, or the refusal.
fn explain_report(rt: &HostRuntime, report: Result<Depths, Refusal>) {
    match report {
        Ok(d) => explain_depths(rt, d),
        Err(r) => explain(rt, Some(r)),
    }
}

// The depths with these two keys.
// Not inlined: the buffers of all verbs in one frame would need more than 1 MiB of stack.
#[inline(never)]
fn depth_by(rt: &HostRuntime, keys: Delimiters) {
    let mut space = [0; BOOK_READ];
    let Some(book) = book_at(rt, 4, &mut space) else {
        return;
    };
    let mut digits = [0; NUMBER];
    let Some(asked) = asked_at(rt, 5, &mut digits) else {
        return;
    };
    let mut out = [0; LINE];
    match depth_reply(book, keys, asked, &mut out) {
        Some(reply) => {
            write_front(rt, &out, reply.length);
            explain_report(rt, reply.found);
        }
        None => say::no_number(rt),
    }
}

// The key that opens blocks and the one that closes them.
fn keys_at(rt: &HostRuntime) -> Option<Delimiters> {
    let opening = key_at(rt, 2)?;
    let closing = key_at(rt, 3)?;
    Some(Delimiters { opening, closing })
}

pub(crate) fn depth(rt: &HostRuntime) {
    match keys_at(rt) {
        Some(keys) => depth_by(rt, keys),
        None => say::no_key(rt),
    }
}
