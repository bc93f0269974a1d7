// The line of what a book holds.
ghost use Rattle.survey.specs.Facts.{survey_figures};
ghost use Rattle.output.specs.Lines.{Line, facts_text, survey_line};

use crate::line::{LINE, put_field, refused_line};
use decimals::Draft;
use refusal::Refusal;
use survey::Facts;

// `sound version V macros M items I bytes B` and LF.
fn facts_line(f: Facts, out: &mut [u8; LINE]) -> usize
    ensures { Line (facts_text f) out.old out.new result }
{
    let mut line = Draft::new(out);
    put_field(&mut line, b"sound version ", f.version as u64);
    put_field(&mut line, b" macros ", f.macros as u64);
    put_field(&mut line, b" items ", f.items);
    put_field(&mut line, b" bytes ", f.bytes);
    line.put(b"\n");
    line.length()
}

// The line of what a book holds, at the front of a buffer; answers its length.
pub fn survey_line(s: Result<Facts, Refusal>, out: &mut [u8; LINE]) -> usize
    ensures { Line (survey_line (survey_figures s)) out.old out.new result }
{
    match s {
        Ok(f) => facts_line(f, out),
        Err(r) => refused_line(r, out),
    }
}
