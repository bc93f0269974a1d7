// A bracket (document 01, "Patterns"), read from the pattern's own bytes (document 02, S-2).
ghost use Rattle.std.specs.Prelude.{◌≡◌, drop, length};
ghost use Rattle.brackets.specs.Brackets.{read_bracket};
ghost use Rattle.brackets.specs.Answers.{keys_behind, place_behind};
ghost use Rattle.brackets.specs.Promises.{ElementsDone, elements_from};

use crate::cursor::AtomCursor;
use crate::look::peek;
use crate::set::{add_element, store};
use letters::Case;

impl AtomCursor {
    // Adds the elements from the cursor on to a set, up to the `]` that closes the bracket, and hands out the cursor behind it.
    // "A `]` as first element is itself".
    fn elements(self, s: &[u8], set: &mut [bool; 256]) -> Option<AtomCursor>
        ensures { ElementsDone (length s.now) (elements_from self.at s.now) set.old set.new result }
    {
        let mut here = self;
        let mut first = true;
        // By a cursor and no `for`: an element has one to ten bytes.
        while here.at < s.len() {
            if !first & (peek(s, here.at) == b']') {
                return Some(here.past(1));
            }
            let (e, next) = here.element(s, first)?;
            add_element(set, e);
            here = next;
            first = false;
        }
        None
    }

    // The bracket whose `[` is passed: "optional `^` for all keys but these, elements, `]`". Its keys get these states into their
    // words; a fault leaves the words as they are.
    pub(crate) fn bracket(
        self,
        s: &[u8],
        case: Case,
        states: u64,
        keys: &mut [u64; 256],
    ) -> Option<AtomCursor>
        ensures place { result ≡ place_behind (length s.now) (read_bracket (drop self.at s.now)) }
        ensures table { keys.new ≡ keys_behind case (read_bracket (drop self.at s.now)) states keys.old }
    {
        let negated = peek(s, self.at) == b'^';
        let mut set = [false; 256];
        let end = self.past(negated as usize).elements(s, &mut set)?;
        store(&set, case, negated, states, keys);
        Some(end)
    }
}
