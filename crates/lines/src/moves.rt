// The moves of a set of states, by look-up (document 01, "States and steps").
ghost use Rattle.std.specs.Prelude.{◌≡◌};
ghost use Rattle.lines.specs.Moving.{looked_up};

use pattern::{State, Tables};
use stateset::{chosen, image, intersection, meets, union};

// The states that a key which is no line end leads to.
pub fn advance(set: u64, key: u8, tables: &Tables) -> u64
    ensures { result ≡ looked_up tables.now.keys tables.now.enter tables.now.accepting set key }
{
    let start = State::LINE_START.set();
    let mid = State::MID_LINE.set();
    let found = State::FOUND.set();
    let atoms = intersection(image(&tables.enter, set), tables.keys[key as usize]);
    let on = chosen(meets(set, union(start, mid)), mid);
    let always = chosen(meets(set, tables.accepting.always), found);
    let ended = chosen(meets(atoms, tables.accepting.ends), found);
    union(union(atoms, on), union(always, ended))
}
