// What reading a pattern yields: the tables of its automaton (document 01, "States and steps").
ghost use Rattle.std.specs.Prelude.{◌≡◌, ◌≤◌, length, true};
ghost use Rattle.runs.specs.Keys.{is_line};
ghost use Rattle.pattern.specs.Reader.{counted, read_branches, read_pattern};
ghost use Rattle.pattern.specs.Automata.{accepting_of, enter_read, entered_by, read_figures, tables_of, verdict_figures};

use crate::clean::clean;
use crate::cursor::Cursor;
use crate::shape::Moves;
use crate::state::State;
use crate::summary::Summary;
use letters::Case;
use refusal::Refusal;
use stateset::{chosen, union};

// What the moves into found and a line's end need. A word is a set of states.
#[derive(Clone, Copy)]
pub struct Accepting {
    // The states that every key but LF leads to found: found, and line-start if a branch without both anchors can match nothing.
    pub always: u64,
    // The atoms that can end a branch without `$`: entering one also enters found.
    pub ends: u64,
    // The states that accept at a line's end.
    pub accepting: u64,
    // How many states there are.
    pub states: usize,
}

// The tables of a pattern's automaton.
#[derive(Clone, Copy)]
pub struct Tables {
    // For each key, the atoms whose set has it.
    pub keys: [u64; 256],
    // For each state, the atoms that it may enter.
    pub enter: [u64; 32],
    pub accepting: Accepting,
}

// What the branches come to, with so many atoms.
fn summed(a: Summary, atoms: usize) -> Accepting
    requires { atoms ≤ 29 }
    ensures { result ≡ accepting_of a atoms }
{
    let start = State::LINE_START.set();
    let found = State::FOUND.set();
    let always = union(found, chosen(a.jump, start));
    let fixed = union(found, chosen(a.empty, start));
    let accepting = union(fixed, a.anchored);
    let states = State::count(atoms as u8);
    Accepting {
        always,
        ends: a.ends,
        accepting,
        states,
    }
}

// A pattern of up to 128 bytes, none of which is 0 or 10.
fn read_clean(s: &[u8], case: Case) -> Result<Tables, Refusal>
    requires { (length s.now ≤ 128) × (is_line s.now ≡ true) }
    ensures { result ≡ tables_of case (counted (read_branches (length s.now) s.now)) }
{
    let mut moves = Moves {
        keys: [0; 256],
        enter: [0; 32],
    };
    let none = Summary {
        first: 0,
        free: 0,
        ends: 0,
        anchored: 0,
        empty: false,
        jump: false,
    };
    let read = Cursor::start(s, case).branches(none, &mut moves);
    let Some((atoms, sum)) = read else {
        return Err(Refusal::PatternSyntax);
    };
    if atoms > 29 {
        return Err(Refusal::TooManyAtoms);
    }
    moves.enter[State::LINE_START.place()] = sum.first;
    moves.enter[State::MID_LINE.place()] = sum.free;
    let accepting = summed(sum, atoms);
    Ok(Tables {
        keys: moves.keys,
        enter: moves.enter,
        accepting,
    })
}

// Reads a pattern, with case ignored or not. Refused with 7, 8 and 9 of document 01's table, in that order.
// Inlined: else the tables are cleared and copied once more on their way to the caller.
#[inline(always)]
pub fn read_pattern(s: &[u8], case: Case) -> Result<Tables, Refusal>
    ensures figures { verdict_figures result ≡ read_figures (read_pattern s.now) }
    ensures entered { entered_by result ≡ enter_read (read_pattern s.now) }
    ensures tables { result ≡ tables_of case (read_pattern s.now) }
{
    let n = s.len();
    if (n == 0) | (n > 128) {
        return Err(Refusal::PatternLength);
    }
    if clean(s) {
        return read_clean(s, case);
    }
    Err(Refusal::PatternSyntax)
}
