// The span of a run with one key more.
ghost use Rattle.std.specs.Prelude.{◌≡◌};
ghost use Rattle.spans.specs.Joining.{end_span, extended_span, moved_span, moved_states};

use crate::edges::{key_edges, return_edges};
use crate::joining::join_spans;
use crate::rows::States;
use crate::span::{Edges, JoinedSpan, Span, ended_span, open_span};
use pattern::{Accepting, State, Tables};

// The states that a key which is no line end leads to; the edges are left.
fn moved_states(a: Span, key: u8, tables: &Tables) -> Span
    ensures { result ≡ moved_states tables.now.keys tables.now.enter tables.now.accepting a key }
{
    let states = States::new(a.s);
    if a.ended {
        let tail = states.moved(a.tail, key, tables);
        return ended_span(states.count, states.within(a.heads), tail, a.edges);
    }
    let rows = a.rows;
    open_span(states.count, states.moved_rows(&rows, key, tables), a.edges)
}

// A key that is no line end: the states behind it, and the edges, which a CR takes from the states before it.
fn moved_span(a: Span, key: u8, tables: &Tables) -> Span
    ensures { result ≡ moved_span tables.now.keys tables.now.enter tables.now.accepting a key }
{
    let on = moved_states(a, key, tables);
    if key == b'\r' {
        let edges = return_edges(States::new(a.s), a, tables.accepting);
        return Span { edges, ..on };
    }
    Span {
        edges: key_edges(a),
        ..on
    }
}

// A line end alone.
fn end_span(s: u64, p: Accepting) -> Span
    ensures { result ≡ end_span s p }
{
    ended_span(s, p.accepting, State::LINE_START.set(), Edges::LINE_END)
}

// The span of a run with one key more, and whether that closes a line between two line ends which matches.
pub fn extended_span(a: Span, key: u8, tables: &Tables) -> JoinedSpan
    ensures { result ≡ extended_span tables.now.keys tables.now.enter tables.now.accepting a key }
{
    if key == b'\n' {
        return join_spans(a, end_span(a.s, tables.accepting));
    }
    JoinedSpan {
        span: moved_span(a, key, tables),
        closes: false,
    }
}
