// How many lines there are, where 64 bits count them; `None` where there are more.
ghost use Rattle.std.specs.Prelude.{◌≡◌};
ghost use Rattle.reports.specs.Totals.{both_totals};

// The lines of both.
pub fn sum(a: Option<u64>, b: Option<u64>) -> Option<u64>
    ensures { result ≡ both_totals a b }
{
    a?.checked_add(b?)
}
