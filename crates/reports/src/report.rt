// Reports of runs: a span and the number of its closed lines, flat (document 01, "Reports", with document 02, S-4); and joining.
ghost use Rattle.std.specs.Prelude.{◌≡◌, ◌&&◌, eqb, leb};
ghost use Rattle.reports.specs.Reports.{closed_in, in_report, report_of};
ghost use Rattle.reports.specs.Answers.{join_result, joined_figures};

use crate::edges::{edges_in, edges_word};
use crate::span_count::{SpanCount, joined};
use refusal::Refusal;
use spans::Span;

// The work words of a report behind its rows: flag, heads, closed, tail, trimmed, edges.
pub const BEHIND_ROWS: usize = 6;

// What a run does to the states of a pattern.
#[derive(Clone, Copy)]
pub struct Report {
    // How many states there are.
    pub s: u64,
    // The states reached from each state, without a line end in the run.
    pub rows: [u64; 32],
    // 0 without a line end, 1 with one, 2 with one and more closed lines than 64 bits count. A number and no Option around `closed`: document 01
    // has both among a report's words, and `report-fields` speaks of each.
    pub flag: u64,
    // The states from which the first line is accepted.
    pub heads: u64,
    // How many lines match between the first line end and the last.
    pub closed: u64,
    // The states reached from line-start since the last line end.
    pub tail: u64,
    // The states from which the keys since the last line end, less a final CR, are accepted, once there is a line end from line-start alone;
    // none without a final CR.
    pub trimmed: u64,
    // 1 if the run begins with a line end, plus 2 if it ends in CR.
    pub edges: u64,
}

impl Report {
    // The report of zeros.
    pub(crate) const ZEROS: Report = Report {
        s: 0,
        rows: [0; 32],
        flag: 0,
        heads: 0,
        closed: 0,
        tail: 0,
        trimmed: 0,
        edges: 0,
    };
}

// The closed lines in a report; a flag over 2 is read as 2.
fn closed_in(a: Report) -> Option<u64>
    ensures { result ≡ closed_in a }
{
    match a.flag {
        0 => Some(0),
        1 => Some(a.closed),
        _ => None,
    }
}

// The span and the closed lines in a report.
pub fn in_report(a: Report) -> SpanCount
    ensures { result ≡ in_report a }
{
    // A literal takes an array from a variable.
    let rows = a.rows;
    let span = Span {
        s: a.s,
        rows,
        ended: a.flag != 0,
        heads: a.heads,
        tail: a.tail,
        edges: edges_in(a.trimmed, a.edges),
    };
    SpanCount {
        span,
        closed: closed_in(a),
    }
}

// A span and the number of its closed lines, flat.
pub fn report_of(a: SpanCount) -> Report
    ensures { result ≡ report_of a }
{
    let span = a.span;
    let rows = span.rows;
    let (flag, closed) = match (span.ended, a.closed) {
        (false, _) => (0, 0),
        (true, Some(n)) => (1, n),
        (true, None) => (2, 0),
    };
    Report {
        s: span.s,
        rows,
        flag,
        heads: span.heads,
        closed,
        tail: span.tail,
        trimmed: span.edges.trimmed,
        edges: edges_word(span.edges),
    }
}

// Whether two reports may be of one pattern: the numbers of their states.
fn sizes_alike(s: u64, t: u64) -> bool
    ensures { result ≡ (eqb s t && (leb 3 s && leb s 32)) }
{
    s == t && (3..=32).contains(&s)
}

// Joins the reports of two runs into that of the one run after the other. Refused with 13 for reports that are not of one pattern's size.
pub fn join(a: Report, b: Report) -> Result<Report, Refusal>
    ensures { joined_figures result ≡ join_result a b }
{
    if !sizes_alike(a.s, b.s) {
        return Err(Refusal::ReportMismatch);
    }
    Ok(report_of(joined(in_report(a), in_report(b))))
}
