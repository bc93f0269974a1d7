// One element of a bracket (document 01, "Patterns"): "one byte, a range by byte value .., or a class".
ghost use Rattle.std.specs.Prelude.{◌≡◌, ◌&&◌, [], ◌∷◌, ◌+◌, ◌<◌, ◌≤◌, eqb, drop, length};
ghost use Rattle.brackets.specs.Brackets.{read_byte, read_class, read_element, read_range, starts_range};
ghost use Rattle.brackets.specs.Promises.{element_shown};
ghost use Rattle.runs.specs.Keys.{member};

use crate::cursor::AtomCursor;
use crate::look::peek;

// A byte, a range as its first and last byte, or a class as its place in the table.
#[derive(Clone, Copy)]
pub(crate) enum Element {
    Byte(u8),
    Range(u8, u8),
    Class(usize),
}

// `[.`, `[=` or `[:`.
fn opens(b: u8, c: u8) -> bool
    ensures { result ≡ eqb b 91 && member c (46 ∷ 61 ∷ 58 ∷ []) }
{
    (b == b'[') & matches!(c, b'.' | b'=' | b':')
}

impl AtomCursor {
    // "An element followed by `-` and then not by `]` starts a range". The cursor stands behind the element, which has at most ten bytes.
    fn starts_range(self, s: &[u8]) -> bool
        requires { self.at ≤ length s.now + 10 }
        ensures { result ≡ starts_range (drop self.at s.now) }
    {
        (peek(s, self.at) == b'-') & (peek(s, self.at + 1) != b']')
    }

    // A class, whose `[:` stands at the cursor. Refused are "a `[:` that begins none of the twelve classes and a class at
    // either end of a range".
    fn class(self, s: &[u8]) -> Option<(Element, AtomCursor)>
        requires { self.at ≤ length s.now }
        ensures { result ≡ element_shown self.at (read_class (drop (self.at + 2) s.now)) }
    {
        let (c, next) = self.past(2).find_class(s)?;
        if next.starts_range(s) {
            return None;
        }
        Some((Element::Class(c), next))
    }

    // A range, "first not above last". A `-` may "start a range as the first element".
    fn range(self, s: &[u8], first: bool) -> Option<(Element, AtomCursor)>
        requires { self.at ≤ length s.now }
        ensures { result ≡ element_shown self.at (read_range first (drop self.at s.now)) }
    {
        let a = peek(s, self.at);
        let b = peek(s, self.at + 2);
        if (first | (a != b'-')) & ((a <= b) & !opens(b, peek(s, self.at + 3))) {
            return Some((Element::Range(a, b), self.past(3)));
        }
        None
    }

    // One byte. "A `-` that begins an element must be first or last".
    fn byte(self, s: &[u8], first: bool) -> Option<(Element, AtomCursor)>
        requires { self.at ≤ length s.now }
        ensures { result ≡ element_shown self.at (read_byte first (drop self.at s.now)) }
    {
        let a = peek(s, self.at);
        if (a != 0) & (first | ((a != b'-') | (peek(s, self.at + 1) == b']'))) {
            return Some((Element::Byte(a), self.past(1)));
        }
        None
    }

    // The element at the cursor, the bracket's first or a later one, and the cursor behind it. In it "a `[.` and a `[=` are refused".
    pub(crate) fn element(self, s: &[u8], first: bool) -> Option<(Element, AtomCursor)>
        requires { self.at < length s.now }
        ensures { result ≡ element_shown self.at (read_element first (drop self.at s.now)) }
    {
        let a = peek(s, self.at);
        let b = peek(s, self.at + 1);
        if (a == b'[') & (b == b':') {
            return self.class(s);
        }
        if (a == b'[') & ((b == b'.') | (b == b'=')) {
            return None;
        }
        if self.past(1).starts_range(s) {
            return self.range(s, first);
        }
        self.byte(s, first)
    }
}
