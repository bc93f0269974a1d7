// What the arguments name: the verb, whether case is ignored, the pattern, the keys, the book, the macro.
use crate::say;
use command::{Asked, BOOK_READ, PATTERN_READ};
use counter::Case;
use decimals::wide_in;
use files::{read_path, say_failure};
use std::env::FillError;
use std::io::Error;
use std::rt::Env;
use survey::key_in;

// Room for a word and for a path: the system opens none of 4,096 bytes or more.
const WORD: usize = 4096;

// Room for every argument: the system passes none of 131,072 bytes or more.
pub(crate) const NUMBER: usize = 131072;

// ENAMETOOLONG, the system's error for a path that is too long.
const TOO_LONG: i32 = 36;

// One argument more than any verb takes: as many stand for all that are more.
const MOST: usize = 9;

// Whether there is an argument of this number.
fn is_given(rt: &HostRuntime, i: usize) -> bool {
    !matches!(rt.arg(i, &mut [0u8; 1]), Err(FillError::NotPresent))
}

// How many arguments there are, the program's name among them.
fn arg_count(rt: &HostRuntime) -> usize {
    for i in 0..MOST {
        if !is_given(rt, i) {
            return i;
        }
    }
    MOST
}

// What the program is asked to do.
#[derive(Clone, Copy)]
pub(crate) enum Verb {
    Count,
    Check,
    Depth,
    Lines,
    Reach,
}

// The verb that the first argument is, with as many arguments as it takes.
pub(crate) fn asked_verb(rt: &HostRuntime) -> Option<Verb> {
    let mut space = [0; WORD];
    let n = rt.arg(1, &mut space).ok()?;
    match (&space[..n], arg_count(rt)) {
        (b"count", 5 | 6) => Some(Verb::Count),
        (b"check", 3) => Some(Verb::Check),
        (b"depth", 5 | 6) => Some(Verb::Depth),
        (b"lines", 7 | 8) => Some(Verb::Lines),
        (b"reach", 3 | 4) => Some(Verb::Reach),
        _ => None,
    }
}

// Whether case is ignored, by an argument.
pub(crate) fn case_at(rt: &HostRuntime, i: usize) -> Option<Case> {
    let mut space = [0; WORD];
    let n = rt.arg(i, &mut space).ok()?;
    match &space[..n] {
        b"sensitive" => Some(Case::Sensitive),
        b"ignored" => Some(Case::Ignored),
        _ => None,
    }
}

// The key that an argument names. A key's name is shorter than the buffer; what does not fit there names none.
pub(crate) fn key_at(rt: &HostRuntime, i: usize) -> Option<u8> {
    let mut space = [0; WORD];
    let n = rt.arg(i, &mut space).ok()?;
    key_in(&space[..n])
}

// The pattern that an argument is, in the buffer: of a longer one, as many bytes as the buffer has.
pub(crate) fn pattern_at<'a>(
    rt: &HostRuntime,
    i: usize,
    space: &'a mut [u8; PATTERN_READ],
) -> &'a [u8] {
    match rt.arg(i, space) {
        Ok(n) => &space[..n],
        Err(FillError::TooLong) => space,
        Err(FillError::NotPresent) => &[],
    }
}

// The book that an argument names, as much of it as the buffer has room for; none if it cannot be read, which has been said.
pub(crate) fn book_at<'a>(
    rt: &HostRuntime,
    i: usize,
    space: &'a mut [u8; BOOK_READ],
) -> Option<&'a [u8]> {
    let mut path = [0; WORD];
    match rt.arg(i, &mut path) {
        Ok(n) => {
            let n = read_path(rt, &path[..n], space)?;
            Some(&space[..n])
        }
        Err(_) => {
            say_failure(rt, b"the book's path", Error::from_raw_os_error(TOO_LONG));
            None
        }
    }
}

// The macro whose number an argument is, or the last one where there is no such argument; none if the number is too long, which has been said.
pub(crate) fn asked_at<'a>(
    rt: &HostRuntime,
    i: usize,
    space: &'a mut [u8; NUMBER],
) -> Option<Asked<'a>> {
    match rt.arg(i, space) {
        Ok(n) => Some(Asked::Named(&space[..n])),
        Err(FillError::NotPresent) => Some(Asked::Last),
        Err(FillError::TooLong) => {
            say::text(rt, "the macro number is too long\n");
            None
        }
    }
}

// The number that an argument is; what does not fit the space is none.
pub(crate) fn wide_at(rt: &HostRuntime, i: usize) -> Option<u64> {
    let mut space = [0; NUMBER];
    let n = rt.arg(i, &mut space).ok()?;
    wide_in(&space[..n])
}
