// An atom: its reader stands in `brackets`; here it gets its number and its state.
ghost use Rattle.std.specs.Prelude.{◌≡◌, eqb};
ghost use Rattle.pattern.specs.States.{atom_word};
ghost use Rattle.pattern.specs.Cycle.{ReadsAtom};

use crate::cursor::Cursor;
use crate::shape::Shape;
use crate::state::State;
use brackets::AtomCursor;

// The set of atom k's state; atoms past 29 are counted and not stored.
fn atom_set(k: usize) -> u64
    ensures { result ≡ atom_word (eqb k) }
{
    if k < 29 {
        State::atom(k as u8).set()
    } else {
        0
    }
}

impl<'a> Cursor<'a> {
    // The atom at the cursor: the cursor behind it, and its shape. Its keys go into the table.
    pub(crate) fn atom(self, keys: &mut [u64; 256]) -> Option<(Cursor<'a>, Shape)>
        ensures { ReadsAtom self.entry keys.old result keys.new }
    {
        let set = atom_set(self.atoms);
        let here = AtomCursor { at: self.at };
        let next = here.atom(self.bytes, self.case, set, keys)?;
        let shape = Shape {
            nothing: false,
            first: set,
            last: set,
        };
        Some((self.advanced(next.at, 1), shape))
    }
}
