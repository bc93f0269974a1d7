// Rows of states, one for each: s of them, and bits at s and above are not there.
ghost use Rattle.std.specs.Prelude.{ℕ, Bool, ◌<◌, ◌≤◌, ◌≡◌, get_or};
ghost use Rattle.stateset.specs.Set.{bit, common, word};
ghost use Rattle.spans.specs.Spans.{rows_of};
ghost use Rattle.spans.specs.Joining.{keyed, onward, state_count};

use lines::advance;
use pattern::Tables;
use stateset::{chosen, image, meets, only, union, within};

// How many states there are.
#[derive(Clone, Copy)]
pub(crate) struct States {
    pub(crate) count: u64,
    ghost few: { count ≤ 32 },
}

impl States {
    // More than 32 are read as 32.
    pub(crate) fn new(s: u64) -> States
        ensures { result.count ≡ state_count s }
    {
        States { count: s.min(32) }
    }

    // The states of a set that there are.
    pub(crate) fn within(self, x: u64) -> u64
        ensures { result ≡ word self.count (bit x) }
    {
        within(self.count, x)
    }

    // Whether two sets have a state in common.
    pub(crate) fn meeting(self, x: u64, y: u64) -> bool
        ensures { result ≡ common self.count x y }
    {
        meets(self.within(x), y)
    }

    // The states that the rows lead to from the states of x.
    pub(crate) fn onward_from(self, x: u64, rows: &[u64; 32]) -> u64
        ensures { result ≡ word self.count (onward self.count x rows.now) }
    {
        self.within(image(rows, self.within(x)))
    }

    // The states that a key which is no line end leads to from the states of x.
    pub(crate) fn moved(self, x: u64, key: u8, tables: &Tables) -> u64
        ensures { result ≡ word self.count (keyed tables.now.keys tables.now.enter tables.now.accepting key self.count x) }
    {
        self.within(advance(self.within(x), key, tables))
    }

    // The row that each state is given, and zeros for the states that there are not.
    pub(crate) fn each_row<F: Fn(usize) -> u64>(self, row: F) -> [u64; 32]
        requires { (q : ℕ) → q < self.count → F.pre row q }
        ensures { (X : ℕ → ℕ → Bool) → ((q x : ℕ) → q < self.count → F.post row q x → x ≡ word self.count (X q)) → result ≡ rows_of self.count X }
    {
        let mut rows = [0; 32];
        for q in 0..self.count as usize {
            rows[q] = row(q);
        }
        rows
    }

    // The rows of one run after the other.
    pub(crate) fn rows_through(self, a: &[u64; 32], b: &[u64; 32]) -> [u64; 32]
        ensures { result ≡ rows_of self.count (λ q. onward self.count (get_or a.now q 0) b.now) }
    {
        self.each_row(|q| self.onward_from(a[q], b))
    }

    // The rows of a run with a key more that is no line end.
    pub(crate) fn moved_rows(self, a: &[u64; 32], key: u8, tables: &Tables) -> [u64; 32]
        ensures { result ≡ rows_of self.count (λ q. keyed tables.now.keys tables.now.enter tables.now.accepting key self.count (get_or a.now q 0)) }
    {
        self.each_row(|q| self.moved(a[q], key, tables))
    }

    // The states whose row has a state of y.
    pub(crate) fn heads_through(self, a: &[u64; 32], y: u64) -> u64
        ensures { result ≡ word self.count (λ q. common self.count (get_or a.now q 0) y) }
    {
        let mut heads = 0;
        for q in 0..self.count as usize {
            heads = union(heads, chosen(self.meeting(a[q], y), only(q as u32)));
        }
        heads
    }
}
