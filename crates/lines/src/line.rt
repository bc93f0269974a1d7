// The one-line test.
ghost use Rattle.std.specs.Prelude.{◌≡◌};
ghost use Rattle.pattern.specs.Reader.{read_pattern};
ghost use Rattle.lines.specs.Answers.{line_figures, line_result};
ghost use Rattle.lines.specs.Promises.{TestsLine};

use crate::moves::advance;
use letters::Case;
use pattern::{State, Tables, read_pattern};
use refusal::Refusal;
use stateset::meets;

fn tested(line: &[u8], tables: &Tables) -> Result<bool, Refusal>
    ensures { TestsLine tables.now line.now result }
{
    let mut set = State::LINE_START.set();
    for &key in line {
        if key == 0 || key == b'\n' {
            return Err(Refusal::InvalidKey);
        }
        set = advance(set, key, tables);
    }
    Ok(meets(set, tables.accepting.accepting))
}

// Whether a line matches a pattern, with case ignored or not. Refused with 7, 8, 9 for the pattern, then with 5 for a byte 0 or 10 in the
// line.
pub fn test_line(pattern: &[u8], case: Case, line: &[u8]) -> Result<bool, Refusal>
    ensures { line_figures result ≡ line_result case (read_pattern pattern.now) line.now }
{
    let tables = read_pattern(pattern, case)?;
    tested(line, &tables)
}
