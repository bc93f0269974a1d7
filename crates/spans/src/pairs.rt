// The pairs of states of a run (document 01, "States and steps").
ghost use Rattle.std.specs.Prelude.{◌≡◌, get_or};
ghost use Rattle.runs.specs.Counts.{count_below, sum_below};
ghost use Rattle.stateset.specs.Set.{bit};
ghost use Rattle.spans.specs.Pairs.{pairs_in};

use crate::rows::States;
use crate::span::Span;
use stateset::size;

// How many states the rows have together.
fn sizes(states: States, rows: &[u64; 32]) -> u64
    ensures { result ≡ sum_below states.count (λ q. count_below states.count (bit (get_or rows.now q 0))) }
{
    let mut sum = 0;
    for row in &rows[..states.count as usize] {
        sum += size(states.within(*row));
    }
    sum
}

// How many pairs of states a span shows.
pub fn pairs_in(a: Span) -> u64
    ensures { result ≡ pairs_in a }
{
    let states = States::new(a.s);
    if a.ended {
        return size(states.within(a.tail));
    }
    let rows = a.rows;
    sizes(states, &rows)
}
