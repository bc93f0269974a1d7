// An atom (document 01, "Patterns"): a plain byte, `.`, an escaped mark or a bracket.
ghost use Rattle.std.specs.Prelude.{◌≡◌, drop, length};
ghost use Rattle.brackets.specs.Form.{marks};
ghost use Rattle.brackets.specs.Brackets.{read_atom};
ghost use Rattle.brackets.specs.Answers.{keys_behind, place_behind};
ghost use Rattle.runs.specs.Keys.{member};

use crate::cursor::AtomCursor;
use crate::look::peek;
use crate::set::{store_dot, store_key};
use letters::Case;

// The twelve marks.
const MARKS: [u8; 12] = *b"^.[$()|*+?{\\";

// Whether a byte is one of the twelve marks.
fn is_mark(b: u8) -> bool
    ensures { result ≡ member b marks }
{
    MARKS.contains(&b)
}

impl AtomCursor {
    // The cursor behind the atom at this one, or none at a fault. The atom's keys get these states into their words; a fault leaves
    // the words as they are.
    pub fn atom(
        self,
        s: &[u8],
        case: Case,
        states: u64,
        keys: &mut [u64; 256],
    ) -> Option<AtomCursor>
        ensures place { result ≡ place_behind (length s.now) (read_atom (drop self.at s.now)) }
        ensures table { keys.new ≡ keys_behind case (read_atom (drop self.at s.now)) states keys.old }
    {
        match *s.get(self.at)? {
            b'.' => {
                store_dot(case, states, keys);
                Some(self.past(1))
            }
            b'[' => self.past(1).bracket(s, case, states, keys),
            b'\\' => {
                let escaped = peek(s, self.at + 1);
                if !is_mark(escaped) {
                    return None;
                }
                store_key(escaped, case, states, keys);
                Some(self.past(2))
            }
            b => {
                if (b == 0) | is_mark(b) {
                    return None;
                }
                store_key(b, case, states, keys);
                Some(self.past(1))
            }
        }
    }
}
