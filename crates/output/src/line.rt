// The line of a count (document 01, "The program `cuecount`").
ghost use Rattle.std.specs.Prelude.{◌++◌, ◌+◌, ◌≤◌, length};
ghost use Rattle.refusal.specs.Number.{number};
ghost use Rattle.decimals.specs.Decimals.{numeral};
ghost use Rattle.decimals.specs.Drafts.{Puts};
ghost use Rattle.command.specs.Input.{told_by};
ghost use Rattle.output.specs.Lines.{Line, count_line, lines_text, refused_text};

use counter::Count;
use decimals::Draft;
use refusal::{Refusal, code};

// Room for every line.
pub const LINE: usize = 128;

// A name and a number.
pub(crate) fn put_field(line: &mut Draft, name: &[u8], n: u64)
    requires { line.old.length + (length name.now + 20) ≤ length line.old.bytes.now }
    ensures text { Puts (name.now ++ numeral n) line.old line.new }
    ensures short { length (numeral n) ≤ 20 }
{
    line.put(name);
    line.put_number(n);
}

// `refused R` and LF, at the front of a buffer that has room for it; answers its length.
pub fn refused_line(r: Refusal, out: &mut [u8]) -> usize
    ensures { 29 ≤ length out.old → Line (refused_text (number r)) out.old out.new result }
{
    let mut line = Draft::new(out);
    line.put(b"refused ");
    line.put_number(code(r) as u64);
    line.put(b"\n");
    line.length()
}

// `lines N steps S` and LF.
fn lines_line(lines: u64, steps: u64, out: &mut [u8; LINE]) -> usize
    ensures { Line (lines_text lines steps) out.old out.new result }
{
    let mut line = Draft::new(out);
    put_field(&mut line, b"lines ", lines);
    put_field(&mut line, b" steps ", steps);
    line.put(b"\n");
    line.length()
}

// The line of a count, at the front of a buffer; answers its length. The buffer stays an array of its own, of which the contract says what all
// of it holds afterwards.
pub fn count_line(c: Result<Count, Refusal>, out: &mut [u8; LINE]) -> usize
    ensures { Line (count_line (told_by c)) out.old out.new result }
{
    match c {
        Ok(c) => lines_line(c.lines, c.steps, out),
        Err(r) => refused_line(r, out),
    }
}
