// How a run begins and ends, where a CR directly before an LF is part of the line end (document 02, S-4): of two runs, and with one key more.
ghost use Rattle.std.specs.Prelude.{◌≡◌};
ghost use Rattle.stateset.specs.Set.{word};
ghost use Rattle.spans.specs.Joining.{is_empty, joined_edges, key_edges, leads_into, return_edges, trims_joined};

use crate::rows::States;
use crate::span::{Edges, Span};
use pattern::{Accepting, State};
use stateset::{chosen, union};

// Whether the run is empty: no move enters line-start, so of runs without a line end only the empty one leads there.
fn is_empty(states: States, a: Span) -> bool
    ensures { result ≡ is_empty states.count a }
{
    !a.ended & states.meeting(a.rows[0], State::LINE_START.set())
}

// The states from which the keys since the last line end lead to a state of y; once there is a line end, from line-start alone.
fn leads_into(states: States, y: u64, a: Span) -> u64
    ensures { result ≡ word states.count (leads_into states.count y a.ended a) }
{
    if a.ended {
        return chosen(states.meeting(a.tail, y), State::LINE_START.set());
    }
    // The rows alone: a reference into the span would have all of it copied.
    let rows = a.rows;
    states.heads_through(&rows, y)
}

// The states from which the keys since the last line end of the one run after the other, less a final CR, are accepted.
fn joined_trimmed(states: States, a: Span, b: Span) -> u64
    ensures { result ≡ word states.count (trims_joined states.count b.ended a b) }
{
    if b.ended {
        return states.within(b.edges.trimmed);
    }
    let kept = chosen(is_empty(states, b), states.within(a.edges.trimmed));
    union(leads_into(states, b.edges.trimmed, a), kept)
}

// The edges of the one run after the other: an empty run leaves those of the other.
pub(crate) fn joined_edges(states: States, a: Span, b: Span) -> Edges
    ensures { result ≡ joined_edges states.count a b }
{
    Edges {
        trimmed: joined_trimmed(states, a, b),
        leading: a.edges.leading | (is_empty(states, a) & b.edges.leading),
        trailing: b.edges.trailing | (is_empty(states, b) & a.edges.trailing),
    }
}

// The edges with a CR more: the states from which the keys before it are accepted.
pub(crate) fn return_edges(states: States, a: Span, p: Accepting) -> Edges
    ensures { result ≡ return_edges states.count p a }
{
    Edges {
        trimmed: leads_into(states, p.accepting, a),
        trailing: true,
        ..a.edges
    }
}

// The edges with another key more that is no line end.
pub(crate) fn key_edges(a: Span) -> Edges
    ensures { result ≡ key_edges a }
{
    Edges {
        leading: a.edges.leading,
        ..Edges::NONE
    }
}
