// What is printed of an answer.
use crate::numbers::hash;
use counter::{Count, Report};
use refusal::{Refusal, code};

// A write that fails is not said: the output is compared with what it must be.
pub(crate) fn text(rt: &HostRuntime, s: &str) {
    let _ = rt.print(s);
}

pub(crate) fn named(rt: &HostRuntime, name: &str, n: u64) {
    text(rt, name);
    let _ = rt.print(n);
}

pub(crate) fn refused(rt: &HostRuntime, r: Refusal) {
    named(rt, "refused ", code(r) as u64);
}

pub(crate) fn line(rt: &HostRuntime, matches: Result<bool, Refusal>) {
    match matches {
        Ok(true) => text(rt, "match"),
        Ok(false) => text(rt, "no match"),
        Err(r) => refused(rt, r),
    }
    text(rt, "\n");
}

pub(crate) fn run(rt: &HostRuntime, lines: Result<u64, Refusal>) {
    match lines {
        Ok(n) => named(rt, "lines ", n),
        Err(r) => refused(rt, r),
    }
    text(rt, "\n");
}

// What a count answers, with the hash of the work words after it.
pub(crate) fn count(rt: &HostRuntime, answer: Result<Count, Refusal>, work: u64) {
    match answer {
        Ok(c) => {
            named(rt, "lines ", c.lines);
            named(rt, " steps ", c.steps);
        }
        Err(r) => refused(rt, r),
    }
    named(rt, " work ", work);
    text(rt, "\n");
}

fn report(rt: &HostRuntime, r: Report) {
    let rows = r.rows;
    named(rt, "report ", r.s);
    named(rt, " ", r.flag);
    named(rt, " ", r.heads);
    named(rt, " ", r.closed);
    named(rt, " ", r.tail);
    named(rt, " ", r.trimmed);
    named(rt, " ", r.edges);
    named(rt, " ", hash(&rows));
}

pub(crate) fn joined(rt: &HostRuntime, joined: Result<Report, Refusal>) {
    match joined {
        Ok(r) => report(rt, r),
        Err(r) => refused(rt, r),
    }
    text(rt, "\n");
}

pub(crate) fn checked(rt: &HostRuntime, macros: Result<u16, Refusal>) {
    match macros {
        Ok(n) => named(rt, "sound ", u64::from(n)),
        Err(r) => refused(rt, r),
    }
    text(rt, "\n");
}

// A body and the number of its refusal, 0 if there is none.
pub(crate) fn body(rt: &HostRuntime, part: &[u8], number: u8) {
    if number == 0 {
        named(rt, "body ", part.len() as u64);
        named(rt, " ", hash(part));
    } else {
        named(rt, "refused ", number as u64);
    }
    text(rt, "\n");
}
