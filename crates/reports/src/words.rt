// The work words of reports (document 01, "Reports", with document 02, S-4): rows, flag, heads, closed, tail, trimmed, edges.
ghost use Rattle.std.specs.Prelude.{◌+◌, ◌-◌, ◌≤◌, ◌≡◌, ◌++◌, length, take, drop, replicate};
ghost use Rattle.reports.specs.Words.{behind_rows, loaded, loaded_at, report_words, room_for, stored_at};

use crate::report::{BEHIND_ROWS, Report};

// Whether n words hold those of a report of s states from `at` on.
fn room_for(n: usize, at: usize, s: u64) -> bool
    ensures { result ≡ room_for n at s }
{
    s <= 32 && at <= n && s as usize + BEHIND_ROWS <= n - at
}

// The rows whose words start at `at`, and zeros for the states that there are not.
fn load_rows(work: &[u64], at: usize, s: usize) -> [u64; 32]
    requires { (s ≤ 32) × (at + s ≤ length work.now) }
    ensures { result ≡ take s (drop at work.now) ++ replicate (32 - s) 0 }
{
    let mut rows = [0; 32];
    rows[..s].copy_from_slice(&work[at..at + s]);
    rows
}

// The report whose words start at `at`.
fn load_words(work: &[u64], at: usize, s: usize) -> Report
    requires { (s ≤ 32) × (at + (s + behind_rows) ≤ length work.now) }
    ensures { result ≡ loaded s (drop at work.now) }
{
    let end = at + s;
    Report {
        s: s as u64,
        rows: load_rows(work, at, s),
        flag: work[end],
        heads: work[end + 1],
        closed: work[end + 2],
        tail: work[end + 3],
        trimmed: work[end + 4],
        edges: work[end + 5],
    }
}

// The report of s states whose words start at `at`; zeros where they are not all there.
pub fn load(work: &[u64], at: usize, s: u64) -> Report
    ensures { result ≡ loaded_at work.now at s }
{
    if room_for(work.len(), at, s) {
        return load_words(work, at, s as usize);
    }
    Report::ZEROS
}

// Writes a report's words from `at` on.
fn store_words(work: &mut [u64], at: usize, r: Report)
    requires { (r.s ≤ 32) × (at + (r.s + behind_rows) ≤ length work.old) }
    ensures { work.new ≡ take at work.old ++ (report_words r ++ drop (at + (r.s + behind_rows)) work.old) }
{
    let s = r.s as usize;
    let end = at + s;
    let behind = [r.flag, r.heads, r.closed, r.tail, r.trimmed, r.edges];
    work[at..end].copy_from_slice(&r.rows[..s]);
    work[end..end + BEHIND_ROWS].copy_from_slice(&behind);
}

// The same where there is room for all of them; else nothing is written.
pub fn store(work: &mut [u64], at: usize, r: Report)
    ensures { work.new ≡ stored_at work.old at r }
{
    if room_for(work.len(), at, r.s) {
        store_words(work, at, r);
    }
}
