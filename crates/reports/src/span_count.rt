// A span and the number of its closed lines: of the empty run, with one key more, of two runs; and the count that it comes to.
ghost use Rattle.std.specs.Prelude.{◌≡◌};
ghost use Rattle.reports.specs.Reports.{empty_count, extended_count, joined_counts, total_in, with_line};

use crate::total::sum;
use pattern::{Accepting, Tables};
use spans::{JoinedSpan, Span, empty_span, end_lines, extended_span, join_spans};

// A run's span, and how many closed lines it has.
#[derive(Clone, Copy)]
pub struct SpanCount {
    pub span: Span,
    // How many lines match between the first line end and the last; none where there are more than 64 bits count.
    pub closed: Option<u64>,
}

// The empty run of a pattern with s states.
pub fn empty_count(s: u64) -> SpanCount
    ensures { result ≡ empty_count s }
{
    SpanCount {
        span: empty_span(s),
        closed: Some(0),
    }
}

// A span after so many closed lines, and the line that it closes.
fn with_line(j: JoinedSpan, closed: Option<u64>) -> SpanCount
    ensures { result ≡ with_line j closed }
{
    let line = u64::from(j.closes);
    SpanCount {
        span: j.span,
        closed: sum(closed, Some(line)),
    }
}

// A run with one key more.
pub fn extended(a: SpanCount, key: u8, tables: &Tables) -> SpanCount
    ensures { result ≡ extended_count tables.now.keys tables.now.enter tables.now.accepting a key }
{
    with_line(extended_span(a.span, key, tables), a.closed)
}

// One run after the other: the line between is closed, too.
pub fn joined(a: SpanCount, b: SpanCount) -> SpanCount
    ensures { result ≡ joined_counts a b }
{
    with_line(join_spans(a.span, b.span), sum(a.closed, b.closed))
}

// How many lines of the run match.
pub fn total_in(a: SpanCount, p: Accepting) -> Option<u64>
    ensures { result ≡ total_in p a }
{
    let ends = end_lines(a.span, p);
    sum(a.closed, Some(ends))
}
