// `lines CASE FIRST COUNT PATTERN BOOK [MACRO]`.
use crate::arguments::{NUMBER, asked_at, book_at, case_at, pattern_at, wide_at};
use crate::meaning::explain;
use crate::say;
use command::{Asked, BOOK_READ, PATTERN_READ};
use counter::Case;
use display::{BUFFER, LineAnswer, SHOWN, line_reply};
use output::write_front;
use refusal::Refusal;
use replies::Reply;

// Which lines are asked for, and whether case is ignored.
#[derive(Clone, Copy)]
struct Range {
    case: Case,
    first: u64,
    count: u64,
}

// Prints an answer, and says what it means; answers whether there may be a next line, which nobody reads where this one could not be written.
// Behind the first line the end of them is no refusal.
fn told(
    rt: &HostRuntime,
    reply: Reply<Result<LineAnswer, Refusal>>,
    out: &[u8],
    first: bool,
) -> bool {
    match reply.found {
        Ok(LineAnswer::Shown(_)) => write_front(rt, out, reply.length),
        Ok(LineAnswer::Long(_)) => {
            let written = write_front(rt, out, reply.length);
            say::long_line(rt);
            written
        }
        Err(r) => {
            if first {
                write_front(rt, out, reply.length);
                explain(rt, Some(r));
            }
            false
        }
    }
}

// The k-th line of the macro that is asked for. The book, the pattern and the macro stay parameters: the check has no borrow checker's part for a
// struct that holds `Asked`, which holds a reference.
fn one_line(
    rt: &HostRuntime,
    book: &[u8],
    pattern: &[u8],
    case: Case,
    k: u64,
    asked: Asked,
    first: bool,
) -> bool {
    let mut line = [0; BUFFER];
    let mut out = [0; SHOWN];
    match line_reply(book, pattern, case, k, asked, &mut line, &mut out) {
        Some(reply) => told(rt, reply, &out, first),
        None => {
            say::no_number(rt);
            false
        }
    }
}

// The lines, one after another, up to the last one that can be asked for.
fn lines_in(rt: &HostRuntime, book: &[u8], pattern: &[u8], asked: Asked, lines: Range) {
    for i in 0..lines.count {
        let Some(k) = lines.first.checked_add(i) else {
            return;
        };
        if !one_line(rt, book, pattern, lines.case, k, asked, i == 0) {
            return;
        }
    }
}

// Not inlined: the buffers of all verbs in one frame would need more than 1 MiB of stack.
#[inline(never)]
fn lines_by(rt: &HostRuntime, lines: Range) {
    let mut given = [0; PATTERN_READ];
    let pattern = pattern_at(rt, 5, &mut given);
    let mut space = [0; BOOK_READ];
    let Some(book) = book_at(rt, 6, &mut space) else {
        return;
    };
    // Where no line is asked for, nothing is said of the macro's number.
    if lines.count == 0 {
        return;
    }
    let mut digits = [0; NUMBER];
    let Some(asked) = asked_at(rt, 7, &mut digits) else {
        return;
    };
    lines_in(rt, book, pattern, asked, lines);
}

// So many lines from this one on.
fn lines_from(rt: &HostRuntime, case: Case, first: u64) {
    match wide_at(rt, 4) {
        Some(count) => lines_by(rt, Range { case, first, count }),
        None => say::usage(rt),
    }
}

fn lines_with(rt: &HostRuntime, case: Case) {
    match wide_at(rt, 3) {
        Some(first) => lines_from(rt, case, first),
        None => say::no_place(rt),
    }
}

pub(crate) fn lines(rt: &HostRuntime) {
    match case_at(rt, 2) {
        Some(case) => lines_with(rt, case),
        None => say::usage(rt),
    }
}
