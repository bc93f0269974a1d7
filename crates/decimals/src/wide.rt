// The number of 64 bits that a text writes.
ghost use Rattle.std.specs.Prelude.{◌≡◌, ◌≤◌, ◌-◌};
ghost use Rattle.decimals.specs.Decimals.{wide_in, wide_step};

use crate::number::is_digit;

// The number so far with one more digit, if it fits.
#[tactic(auto, unfolding(crate::specs::Decimals::wide_step))]
fn wide_digit(n: u64, c: u8) -> Option<u64>
    requires low { 48 ≤ c }
    requires high { c ≤ 57 }
    ensures { result ≡ wide_step n (c - 48) }
{
    n.checked_mul(10)?.checked_add((c - b'0') as u64)
}

// The number that decimal digits write, with zeros in front or without; none if the text is no number, or one that is larger than 64 bits hold.
// `number_in` has another step, and says why it is no other function.
pub fn wide_in(text: &[u8]) -> Option<u64>
    ensures { result ≡ wide_in text.now }
{
    if text.is_empty() {
        return None;
    }
    let mut n = 0;
    for &c in text {
        if !is_digit(c) {
            return None;
        }
        n = wide_digit(n, c)?;
    }
    Some(n)
}
