// The line of an answer, in a buffer.
ghost use Rattle.std.specs.Prelude.{take};
ghost use Rattle.output.specs.Lines.{Line};
ghost use Rattle.display.specs.Asked.{told_by};
ghost use Rattle.display.specs.Lines.{line_text, long_text, shown_text};

use crate::asked::{BUFFER, LineAnswer};
use crate::keys::put_keys;
use decimals::Draft;
use output::refused_line;
use refusal::Refusal;

// Room for the line of a full buffer: four bytes a key, the number, `:` and LF.
pub const SHOWN: usize = 4 * BUFFER + 64;

// `N:TEXT` and LF.
fn shown_line(number: u64, keys: u64, line: &[u8; BUFFER], out: &mut [u8; SHOWN]) -> usize
    ensures { Line (shown_text number (take keys line.now)) out.old out.new result }
{
    let mut text = Draft::new(out);
    text.put_number(number);
    text.put(b":");
    // No more keys than the buffer has.
    let n = keys.min(BUFFER as u64) as usize;
    put_keys(&mut text, &line[..n]);
    text.put(b"\n");
    text.length()
}

// `N length L` and LF.
fn long_line(number: u64, keys: u64, out: &mut [u8; SHOWN]) -> usize
    ensures { Line (long_text number keys) out.old out.new result }
{
    let mut text = Draft::new(out);
    text.put_number(number);
    text.put(b" length ");
    text.put_number(keys);
    text.put(b"\n");
    text.length()
}

// The line of an answer, at the front of a buffer; answers its length.
pub(crate) fn line_text(
    found: Result<LineAnswer, Refusal>,
    line: &[u8; BUFFER],
    out: &mut [u8; SHOWN],
) -> usize
    ensures { Line (line_text (told_by found line.now)) out.old out.new result }
{
    match found {
        Ok(LineAnswer::Shown(found)) => shown_line(found.number, found.length, line, out),
        Ok(LineAnswer::Long(found)) => long_line(found.number, found.length, out),
        Err(r) => refused_line(r, out),
    }
}
