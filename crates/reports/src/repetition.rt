// What is kept of a run that is repeated (document 02, S-8): by doubling, so that 65,535 passes take 31 joinings and not 65,535.
ghost use Rattle.std.specs.Prelude.{◌≡◌, cond};
ghost use Rattle.reports.specs.Reports.{joined_counts};
ghost use Rattle.reports.specs.Repetition.{repeated_count};

use crate::span_count::{SpanCount, empty_count, joined};

// One run after the other, or the first one alone.
fn joined_if(both: bool, a: SpanCount, b: SpanCount) -> SpanCount
    ensures { result ≡ cond both (joined_counts a b) a }
{
    if both { joined(a, b) } else { a }
}

// A run n times.
pub fn repeated(a: SpanCount, n: u16) -> SpanCount
    ensures { result ≡ repeated_count n a }
{
    let mut all = empty_count(a.span.s);
    let mut part = a;
    let mut left = n;
    while 1 < left {
        all = joined_if(left % 2 == 1, all, part);
        part = joined(part, part);
        left /= 2;
    }
    joined_if(left == 1, all, part)
}
