// Joining the spans of two runs (document 01, "Reports").
ghost use Rattle.std.specs.Prelude.{◌≡◌};
ghost use Rattle.stateset.specs.Set.{word};
ghost use Rattle.spans.specs.Joining.{closes_across, heads_across, joined_spans, seam};

use crate::edges::joined_edges;
use crate::rows::States;
use crate::span::{JoinedSpan, Span, ended_span, open_span};
use pattern::State;

// Whether a CR and an LF meet, so that they are one line end.
fn is_seam(a: Span, b: Span) -> bool
    ensures { result ≡ seam a b }
{
    a.edges.trailing & b.edges.leading
}

// The states from which the line across is accepted, where only the right run has a line end.
fn heads_across(states: States, a: Span, b: Span) -> u64
    ensures { result ≡ word states.count (heads_across states.count a b) }
{
    if is_seam(a, b) {
        return states.within(a.edges.trimmed);
    }
    // The rows alone: a reference into the span would have all of it copied.
    let rows = a.rows;
    states.heads_through(&rows, b.heads)
}

// Whether the line across matches, where both have one.
fn closes_across(states: States, a: Span, b: Span) -> bool
    ensures { result ≡ closes_across states.count a b }
{
    if is_seam(a, b) {
        return states.meeting(a.edges.trimmed, State::LINE_START.set());
    }
    states.meeting(a.tail, b.heads)
}

// The span of one run after the other. The last line of the left one and the first of the right one are one line: it is between two
// line ends where both runs have one.
pub fn join_spans(a: Span, b: Span) -> JoinedSpan
    ensures { result ≡ joined_spans a b }
{
    let states = States::new(a.s);
    let s = states.count;
    let edges = joined_edges(states, a, b);
    let span = match (a.ended, b.ended) {
        (false, false) => {
            let left = a.rows;
            let right = b.rows;
            open_span(s, states.rows_through(&left, &right), edges)
        }
        (false, true) => ended_span(s, heads_across(states, a, b), states.within(b.tail), edges),
        (true, false) => {
            let right = b.rows;
            ended_span(
                s,
                states.within(a.heads),
                states.onward_from(a.tail, &right),
                edges,
            )
        }
        (true, true) => ended_span(s, states.within(a.heads), states.within(b.tail), edges),
    };
    JoinedSpan {
        span,
        closes: a.ended & b.ended & closes_across(states, a, b),
    }
}
