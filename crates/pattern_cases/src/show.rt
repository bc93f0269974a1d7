// What is printed of a pattern.
ghost use Rattle.std.specs.Prelude.{◌<◌, ◌≤◌};

use letters::Case;
use pattern::{Accepting, State, Tables, read_pattern};
use refusal::code;
use std::fmt::Display;

// A write that fails is not said: the output is compared with what it must be.
fn text(rt: &HostRuntime, s: &str) {
    let _ = rt.print(s);
}

fn named(rt: &HostRuntime, name: &str, n: u64) {
    let _ = print!(rt; "{name}{n}");
}

// How many of the states are those of atoms.
fn atoms(states: usize) -> usize {
    states.saturating_sub(State::count(0))
}

// Of the accepting states line-start stands lowest, and atoms from 8 on; of those that every key leads to found, line-start lowest.
fn accepting(rt: &HostRuntime, a: Accepting) {
    named(rt, ": atoms ", atoms(a.states) as u64);
    named(rt, " ends ", a.ends);
    named(rt, " anchored ", a.accepting / 8 * 8);
    named(rt, " empty ", a.accepting % 2);
    named(rt, " jump ", a.always % 2);
    text(rt, "\n");
}

// The words of its states.
fn entered(rt: &HostRuntime, enter: &[u64; 32], states: usize) {
    text(rt, "enter");
    for word in enter.iter().take(states) {
        named(rt, " ", *word);
    }
    text(rt, "\n");
}

// The place behind the keys from k on that have the same word.
fn run_end(keys: &[u64; 256], k: usize) -> usize
    requires { k < 256 }
    ensures { (k < result) × (result ≤ 256) }
{
    let word = keys[k];
    keys[k + 1..]
        .iter()
        .position(|w| *w != word)
        .map_or(256, |n| k + 1 + n)
}

// The words of the keys, in runs of equal ones; by a place and no `for`, which goes on behind a run.
fn keyed(rt: &HostRuntime, keys: &[u64; 256]) {
    text(rt, "keys");
    let mut k = 0;
    while k < 256 {
        let end = run_end(keys, k);
        let word = keys[k];
        if word != 0 {
            named(rt, " ", k as u64);
            named(rt, "-", (end - 1) as u64);
            named(rt, ":", word);
        }
        k = end;
    }
    text(rt, "\n");
}

pub(crate) fn case(rt: &HostRuntime, n: usize, s: &[u8]) {
    let _ = rt.print(n);
    match read_pattern(s, Case::Sensitive) {
        Ok(tables) => {
            accepting(rt, tables.accepting);
            entered(rt, &tables.enter, tables.accepting.states);
            keyed(rt, &tables.keys);
        }
        Err(refusal) => {
            named(rt, ": refused ", u64::from(code(refusal)));
            text(rt, "\n");
        }
    }
}
