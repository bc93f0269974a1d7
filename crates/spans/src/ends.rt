// The lines that a span's two ends count.
ghost use Rattle.std.specs.Prelude.{◌≡◌};
ghost use Rattle.spans.specs.Joining.{end_lines, last_line};

use crate::rows::States;
use crate::span::Span;
use pattern::{Accepting, State};

// Whether the last part of a run is a line that matches: it has a key, so that its states have left line-start.
fn last_line(states: States, tail: u64, p: Accepting) -> bool
    ensures { result ≡ last_line states.count p tail }
{
    let open = !states.meeting(tail, State::LINE_START.set());
    open & states.meeting(tail, p.accepting)
}

// How many lines match that are not closed between the first line end and the last: the first line and the last, or the one that is both.
pub fn end_lines(a: Span, p: Accepting) -> u64
    ensures { result ≡ end_lines p a }
{
    let states = States::new(a.s);
    if a.ended {
        let first = states.meeting(a.heads, State::LINE_START.set());
        let last = last_line(states, a.tail, p);
        return u64::from(first) + u64::from(last);
    }
    u64::from(last_line(states, a.rows[0], p))
}
