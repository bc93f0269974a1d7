// Openings and closings of a run that have no partner in it.
ghost use Rattle.std.specs.Prelude.{◌≡◌, ◌≤◌, ◌||◌, eqb};
ghost use Rattle.depth.specs.Answer.{no_delimiter};
ghost use Rattle.depth.specs.Promises.{Sized, followed, key_unmatched, times_unmatched};

// The key that opens a block, and the one that closes it.
#[derive(Clone, Copy)]
pub struct Delimiters {
    pub opening: u8,
    pub closing: u8,
}

impl Delimiters {
    // Whether two such keys cannot open and close blocks.
    pub(crate) fn are_invalid(self) -> bool
        ensures { result ≡ eqb self.opening self.closing || (no_delimiter self.opening || no_delimiter self.closing) }
    {
        self.opening == self.closing
            || is_no_delimiter(self.opening)
            || is_no_delimiter(self.closing)
    }
}

// Whether a key is none, or the line end.
fn is_no_delimiter(key: u8) -> bool
    ensures { result ≡ no_delimiter key }
{
    key == 0 || key == b'\n'
}

// A run's length, the closings that close no block of the run, and the openings of blocks that it leaves open. The depth falls to minus
// these closings, and ends at these openings less these closings. No ghost field says that it is `Sized`: `load` reads it from lent words, which
// may hold anything.
#[derive(Clone, Copy)]
pub(crate) struct Unmatched {
    pub(crate) length: u64,
    pub(crate) closings: u64,
    pub(crate) openings: u64,
}

impl Unmatched {
    // The most keys of a run whose depths are kept.
    pub(crate) const LONGEST: u64 = 1 << 62;

    // What is kept of every longer run.
    const TOO_LONG: Unmatched = Unmatched {
        length: u64::MAX,
        closings: 0,
        openings: 0,
    };

    // A run of no keys.
    pub(crate) const NONE: Unmatched = Unmatched {
        length: 0,
        closings: 0,
        openings: 0,
    };

    // One key.
    pub(crate) fn of_key(keys: Delimiters, key: u8) -> Unmatched
        ensures { result ≡ key_unmatched keys.opening keys.closing key }
    {
        Unmatched {
            length: 1,
            closings: u64::from(key == keys.closing),
            openings: u64::from(key == keys.opening),
        }
    }

    // One run and another behind it: openings of the first meet closings of the second.
    #[tactic(auto, using(crate::proofs::CodeLaws::both_long, crate::proofs::CodeLaws::both_fit))]
    pub(crate) fn followed_by(self, next: Unmatched) -> Unmatched
        requires first { Sized self }
        requires second { Sized next }
        ensures { result ≡ followed self next }
    {
        let length = self.length.saturating_add(next.length);
        if Unmatched::LONGEST < length {
            return Unmatched::TOO_LONG;
        }
        Unmatched {
            length,
            closings: self.closings + next.closings.saturating_sub(self.openings),
            openings: next.openings + self.openings.saturating_sub(next.closings),
        }
    }

    // A run n times. With each pass the keys that stay without a partner become more by what one pass has of the one sort over the other.
    #[tactic(auto, using(crate::proofs::CodeLaws::passes_long))]
    pub(crate) fn repeated(self, n: u16) -> Unmatched
        requires sized { Sized self }
        requires some { 1 ≤ n }
        ensures { result ≡ times_unmatched n self }
    {
        let passes = u64::from(n);
        let whole = self.length.saturating_mul(passes);
        if Unmatched::LONGEST < whole {
            return Unmatched::TOO_LONG;
        }
        Unmatched {
            length: whole,
            closings: self.closings + self.closings.saturating_sub(self.openings) * (passes - 1),
            openings: self.openings + self.openings.saturating_sub(self.closings) * (passes - 1),
        }
    }
}
