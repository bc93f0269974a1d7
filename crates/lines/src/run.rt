// The count over a plain run.
ghost use Rattle.std.specs.Prelude.{◌<◌, ◌+◌, ◌^◌, ◌≡◌};
ghost use Rattle.pattern.specs.Reader.{read_pattern};
ghost use Rattle.lines.specs.Answers.{run_figures, run_result};
ghost use Rattle.lines.specs.Promises.{AfterKey, CountsRun, closed_tally};

use crate::moves::advance;
use letters::Case;
use pattern::{State, Tables, read_pattern};
use refusal::Refusal;
use stateset::meets;

// What is known of a run after some of its keys.
#[derive(Clone, Copy)]
struct Tally {
    // The states that the keys of the last line lead to.
    set: u64,
    // The same without a final CR: what a line end would close.
    trimmed: u64,
    // Whether the last line has a key.
    pending: bool,
    // How many of the lines before it match.
    lines: u64,
}

impl Tally {
    // Before the first key of a line.
    fn behind(lines: u64) -> Tally
        ensures { result ≡ closed_tally lines }
    {
        let start = State::LINE_START.set();
        Tally {
            set: start,
            trimmed: start,
            pending: false,
            lines,
        }
    }

    // After one more key.
    fn with_key(self, key: u8, tables: &Tables) -> Tally
        requires { self.lines + 1 < 2 ^ 64 }
        ensures { AfterKey tables.now self key result }
    {
        if key == b'\n' {
            let closes = meets(self.trimmed, tables.accepting.accepting);
            return Tally::behind(self.lines + u64::from(closes));
        }
        let set = advance(self.set, key, tables);
        let trimmed = if key == b'\r' { self.set } else { set };
        Tally {
            set,
            trimmed,
            pending: true,
            lines: self.lines,
        }
    }
}

fn counted(run: &[u8], tables: &Tables) -> Result<u64, Refusal>
    ensures { CountsRun tables.now run.now result }
{
    let mut tally = Tally::behind(0);
    for &key in run {
        if key == 0 {
            return Err(Refusal::InvalidKey);
        }
        tally = tally.with_key(key, tables);
    }
    let last = tally.pending & meets(tally.set, tables.accepting.accepting);
    Ok(tally.lines + u64::from(last))
}

// How many lines of a run match a pattern, with case ignored or not. Refused with 7, 8, 9 for the pattern, then with 5 for a byte 0 in the
// run.
pub fn count_run(pattern: &[u8], case: Case, run: &[u8]) -> Result<u64, Refusal>
    ensures { run_figures result ≡ run_result case (read_pattern pattern.now) run.now }
{
    let tables = read_pattern(pattern, case)?;
    counted(run, &tables)
}
