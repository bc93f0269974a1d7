// The four work words of a run's extent: line ends, keys before the first, keys behind the last, all keys.
ghost use Rattle.std.specs.Prelude.{◌≡◌};
ghost use Rattle.extents.specs.Words.{loaded_at, stored_at};

use crate::extent::{Extent, no_extent};

// How many words there are.
pub const WIDTH: usize = 4;

// The extent whose words start at `at`; zeros where they are not all there.
#[tactic(auto, unfolding(crate::specs::Words::loaded_at))]
pub fn load_extent(work: &[u64], at: usize) -> Extent
    ensures { result ≡ loaded_at work.now at }
{
    match work.get(at..) {
        Some([ends, first, last, keys, ..]) => Extent {
            ends: *ends,
            first: *first,
            last: *last,
            keys: *keys,
        },
        _ => no_extent(),
    }
}

// Writes an extent's words from `at` on, where there is room for all of them; else nothing is written.
#[tactic(auto, unfolding(crate::specs::Words::stored_at))]
pub fn store_extent(work: &mut [u64], at: usize, e: Extent)
    ensures { work.new ≡ stored_at work.old at e }
{
    if at <= work.len() && WIDTH <= work.len() - at {
        work[at..at + WIDTH].copy_from_slice(&[e.ends, e.first, e.last, e.keys]);
    }
}
