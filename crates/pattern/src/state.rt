// The states of a pattern's automaton (document 01, "States and steps").
ghost use Rattle.std.specs.Prelude.{◌≡◌, ◌%◌, ◌+◌, ◌^◌};

use stateset::only;

// A state, by its number.
#[derive(Clone, Copy)]
pub struct State(u16);

impl State {
    pub const LINE_START: State = State(0);

    pub const MID_LINE: State = State(1);

    pub const FOUND: State = State(2);

    // The state of atom k.
    pub fn atom(k: u8) -> State
        ensures { result.0 ≡ 3 + k }
    {
        State(3 + u16::from(k))
    }

    // The set of this state alone; one that no word holds gives the empty set.
    pub fn set(self) -> u64
        ensures { result ≡ 2 ^ self.0 % 2 ^ 64 }
    {
        only(u32::from(self.0))
    }

    // Its place in a table of states.
    pub fn place(self) -> usize
        ensures { result ≡ self.0 }
    {
        usize::from(self.0)
    }

    // How many states there are with so many atoms: the place behind the last one's.
    pub fn count(atoms: u8) -> usize
        ensures { result ≡ 3 + atoms }
    {
        State::atom(atoms).place()
    }
}
