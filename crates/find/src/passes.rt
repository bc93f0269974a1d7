// Passes of a run that lie before the line that is sought.
ghost use Rattle.std.specs.Prelude.{◌≡◌, ◌≤◌, leb};
ghost use Rattle.reports.specs.Totals.{value_of};
ghost use Rattle.find.specs.Promises.{Skips, with_part};

use reports::{SpanCount, joined};

// Whether k matching lines are closed.
pub(crate) fn closes(a: SpanCount, k: u64) -> bool
    ensures { result ≡ leb k (value_of a.closed) }
{
    a.closed.is_none_or(|n| k <= n)
}

// A run with so many passes of another behind it.
#[derive(Clone, Copy)]
pub(crate) struct Skipped {
    pub(crate) before: SpanCount,
    pub(crate) passes: u16,
}

impl Skipped {
    // With `size` passes more, which `part` is, where there are so many and k lines are not closed then.
    #[tactic(auto, unfolding(crate::specs::Promises::with_part))]
    fn with_part(self, part: SpanCount, size: u16, most: u16, k: u64) -> Skipped
        requires { self.passes ≤ most }
        ensures { result ≡ with_part self part size most k }
    {
        if most - self.passes < size {
            return self;
        }
        let before = joined(self.before, part);
        if closes(before, k) {
            return self;
        }
        Skipped {
            before,
            passes: self.passes + size,
        }
    }
}

// As many passes as can be taken by `size`, which `part` is, up to `most`, before k lines are closed. Larger parts are taken first, so that
// 65,535 passes take 31 joinings.
pub(crate) fn skip(before: SpanCount, part: SpanCount, size: u16, most: u16, k: u64) -> Skipped
    requires { 1 ≤ size }
    ensures { Skips before part size most k result }
{
    let larger = if most / 2 < size {
        Skipped { before, passes: 0 }
    } else {
        skip(before, joined(part, part), 2 * size, most, k)
    };
    larger.with_part(part, size, most, k)
}
