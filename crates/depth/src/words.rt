// The three work words of a macro: run length, end depth, lowest depth, the depths in two's complement. Work words are lent as a
// slice, and a macro's stand at its place there (document 02).
ghost use Rattle.std.specs.Prelude.{◌≡◌, ◌+◌, ◌≤◌, length};
ghost use Rattle.std.proofs.Math.IntN.{sub_ℕ};
ghost use Rattle.depth.specs.Answer.{width, word};
ghost use Rattle.depth.specs.Promises.{loaded_at, stored_at};

use crate::unmatched::Unmatched;

// How many words a macro has.
pub(crate) const WIDTH: usize = 3;

// The word of a - b.
fn difference(a: u64, b: u64) -> u64
    ensures { result ≡ word (sub_ℕ a b) }
{
    a.wrapping_sub(b)
}

impl Unmatched {
    // What the words from a place on stand for.
    pub(crate) fn load(work: &[u64], at: usize) -> Unmatched
        requires { at + width ≤ length work.now }
        ensures { result ≡ loaded_at work.now at }
    {
        let end = work[at + 1];
        let lowest = work[at + 2];
        Unmatched {
            length: work[at],
            closings: difference(0, lowest),
            openings: difference(end, lowest),
        }
    }

    // Puts a run's words from a place on.
    pub(crate) fn store(self, work: &mut [u64], at: usize)
        requires { at + width ≤ length work.old }
        ensures { work.new ≡ stored_at work.old at self }
    {
        work[at] = self.length;
        work[at + 1] = difference(self.openings, self.closings);
        work[at + 2] = difference(0, self.closings);
    }
}
