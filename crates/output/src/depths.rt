// The line of a run's depths.
ghost use Rattle.std.specs.Prelude.{◌++◌, ◌+◌, ◌≤◌, length};
ghost use Rattle.decimals.specs.Drafts.{Puts};
ghost use Rattle.survey.specs.Depths.{depth_told};
ghost use Rattle.output.specs.Lines.{Line, depth_line, depths_text, whole_text};

use crate::line::{LINE, put_field, refused_line};
use decimals::Draft;
use depth::Depths;
use refusal::Refusal;

// A name and a whole number.
fn put_whole(line: &mut Draft, name: &[u8], z: i64)
    requires { line.old.length + (length name.now + 21) ≤ length line.old.bytes.now }
    ensures text { Puts (name.now ++ whole_text z) line.old line.new }
    ensures short { length (whole_text z) ≤ 21 }
{
    line.put(name);
    if z < 0 {
        return put_field(line, b"-", z.unsigned_abs());
    }
    line.put_number(z.unsigned_abs());
}

// `end E lowest L` and LF.
fn depths_line(end: i64, lowest: i64, out: &mut [u8; LINE]) -> usize
    ensures { Line (depths_text end lowest) out.old out.new result }
{
    let mut line = Draft::new(out);
    put_whole(&mut line, b"end ", end);
    put_whole(&mut line, b" lowest ", lowest);
    line.put(b"\n");
    line.length()
}

// The line of a run's depths, at the front of a buffer; answers its length.
pub fn depth_line(d: Result<Depths, Refusal>, out: &mut [u8; LINE]) -> usize
    ensures { Line (depth_line (depth_told d)) out.old out.new result }
{
    match d {
        Ok(d) => depths_line(d.end, d.lowest, out),
        Err(r) => refused_line(r, out),
    }
}
