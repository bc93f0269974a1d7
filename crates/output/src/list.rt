// The lines of a reach list.
ghost use Rattle.std.specs.Prelude.{◌++◌, ◌+◌, ◌*◌, ◌≤◌, length};
ghost use Rattle.decimals.specs.Decimals.{numeral};
ghost use Rattle.decimals.specs.Drafts.{Puts};
ghost use Rattle.reach.specs.Answer.{reached_figures};
ghost use Rattle.output.specs.Lines.{Line, ending, list_text, reach_text};

use crate::line::refused_line;
use decimals::Draft;
use refusal::Refusal;

// Room for the lines of 1,024 numbers of at most 20 digits.
pub const LISTING: usize = 1024 * 21;

// A number and LF.
fn put_entry(lines: &mut Draft, n: u16)
    requires { lines.old.length + 21 ≤ length lines.old.bytes.now }
    ensures text { Puts (numeral n ++ ending) lines.old lines.new }
    ensures short { length (numeral n) ≤ 20 }
{
    lines.put_number(n as u64);
    lines.put(b"\n");
}

// The entries of a list, one a line.
fn put_entries(lines: &mut Draft, list: &[u16])
    requires { lines.old.length + length list.now * 21 ≤ length lines.old.bytes.now }
    ensures text { Puts (list_text list.now) lines.old lines.new }
    ensures short { length (list_text list.now) ≤ length list.now * 21 }
{
    for &n in list {
        put_entry(lines, n);
    }
}

// The lines of a list, from the front of the buffer on.
fn list_lines(list: &[u16], out: &mut [u8; LISTING]) -> usize
    requires { length list.now ≤ 1024 }
    ensures { Line (list_text list.now) out.old out.new result }
{
    let mut lines = Draft::new(out);
    put_entries(&mut lines, list);
    lines.length()
}

// The lines of a reach list, or of its refusal, at the front of a buffer; answers their length.
pub fn reached_lines(
    found: Result<usize, Refusal>,
    list: &[u16; 1024],
    out: &mut [u8; LISTING],
) -> usize
    ensures { Line (reach_text (reached_figures found) list.now) out.old out.new result }
{
    match found {
        Ok(n) => list_lines(&list[..n.min(list.len())], out),
        Err(r) => refused_line(r, out),
    }
}
