// The number that a text writes.
ghost use Rattle.std.specs.Prelude.{◌≡◌, ◌≤◌, ◌+◌, ◌*◌, ◌-◌, min};
ghost use Rattle.decimals.specs.Decimals.{is_digit, number_in};

// A number that no macro has: a book has at most 1,024, from 0 on.
const BEYOND: usize = 1024;

#[tactic(auto, unfolding(crate::specs::Decimals::is_digit))]
pub(crate) fn is_digit(c: u8) -> bool
    ensures { result ≡ is_digit c }
{
    matches!(c, b'0'..=b'9')
}

// The number so far with one more digit. Larger ones stay at BEYOND, so that a text of any length has a number.
fn with_digit(n: usize, c: u8) -> usize
    requires small { n ≤ 1024 }
    requires low { 48 ≤ c }
    requires high { c ≤ 57 }
    ensures { result ≡ min (10 * n + (c - 48)) 1024 }
{
    let more = 10 * n + (c - b'0') as usize;
    more.min(BEYOND)
}

// The number that decimal digits write, BEYOND for all from there on; none if the text is no number. The loop of `wide_in` with another step:
// one function over any step would be no shorter, since its contract would have to speak of any step.
pub fn number_in(text: &[u8]) -> Option<usize>
    ensures { result ≡ number_in text.now }
{
    if text.is_empty() {
        return None;
    }
    let mut n = 0;
    for &c in text {
        if !is_digit(c) {
            return None;
        }
        n = with_digit(n, c);
    }
    Some(n)
}
