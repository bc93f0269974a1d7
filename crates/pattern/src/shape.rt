// What an expression that was read is like, and the tables of keys and states that it is read into.
ghost use Rattle.std.specs.Prelude.{◌≡◌, cond, ◌^◌, ◌<◌};
ghost use Rattle.std.specs.Int.Bits.{bit_or};
ghost use Rattle.pattern.specs.Tables.{alt_shape, linked, seq_shape};

use stateset::union;

// The tables that the readers fill. A word is a set of states.
#[derive(Clone, Copy)]
pub(crate) struct Moves {
    // For each key, the atoms whose set has it.
    pub keys: [u64; 256],
    // For each state, the atoms that it may enter.
    pub enter: [u64; 32],
}

// Whether it can match nothing, and the states of the atoms that can come first and last in it.
#[derive(Clone, Copy)]
pub(crate) struct Shape {
    pub nothing: bool,
    pub first: u64,
    pub last: u64,
}

impl Shape {
    // That of the empty part.
    pub(crate) const EMPTY: Shape = Shape {
        nothing: true,
        first: 0,
        last: 0,
    };

    // One expression after the other.
    pub(crate) fn then(self, next: Shape) -> Shape
        ensures { result ≡ seq_shape self next }
    {
        Shape {
            nothing: self.nothing & next.nothing,
            first: union_if(self.nothing, self.first, next.first),
            last: union_if(next.nothing, next.last, self.last),
        }
    }

    // One expression or the other.
    pub(crate) fn or(self, other: Shape) -> Shape
        ensures { result ≡ alt_shape self other }
    {
        Shape {
            nothing: self.nothing | other.nothing,
            first: union(self.first, other.first),
            last: union(self.last, other.last),
        }
    }
}

// Both sets if t, and the first alone if not.
pub(crate) fn union_if(t: bool, a: u64, b: u64) -> u64
    ensures { result ≡ cond t (bit_or a b) a }
{
    if t { union(a, b) } else { a }
}

// Lets each state of `from` enter those of `to` too.
pub(crate) fn link(enter: &mut [u64; 32], from: u64, to: u64)
    requires { from < 2 ^ 32 }
    ensures { enter.new ≡ linked from to enter.old }
{
    let mut rest = from;
    for word in enter {
        *word = union_if(rest % 2 == 1, *word, to);
        rest /= 2;
    }
}
