// The two words that say how a run begins and ends (document 02, S-4).
ghost use Rattle.std.specs.Prelude.{◌≡◌};
ghost use Rattle.reports.specs.Reports.{edges_in, edges_word};

use spans::Edges;

// The second word: 1 if the run begins with a line end, plus 2 if it ends in CR.
pub(crate) fn edges_word(e: Edges) -> u64
    ensures { result ≡ edges_word e }
{
    u64::from(e.leading) + 2 * u64::from(e.trailing)
}

// The edges that the two words tell; bits of the second of value 4 and above are ignored.
pub(crate) fn edges_in(trimmed: u64, word: u64) -> Edges
    ensures { result ≡ edges_in trimmed word }
{
    Edges {
        trimmed,
        leading: word % 2 == 1,
        trailing: word / 2 % 2 == 1,
    }
}
