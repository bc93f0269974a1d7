// Counts over a book, and the joining of reports.
ghost use Rattle.std.specs.Prelude.{◌<◌, ◌≤◌, IfSome, length};
ghost use Rattle.counter.specs.Counting.{most_words};

use crate::numbers::{hash, prepare, report, small};
use crate::show;
use counter::{Case, MOST_WORDS, count_book, join};

// The bytes in front of a count's pattern.
const HEAD: usize = 13;

// The bytes of a joining: its kind and two reports of 39 numbers.
const JOINING: usize = 625;

// Counts with these work words. Their hash is printed after a refusal too: it shows what the count left there.
fn count_in(rt: &HostRuntime, book: &[u8], pattern: &[u8], case: Case, m: usize, work: &mut [u64])
    requires { length work.old ≤ most_words }
{
    prepare(work);
    let answer = count_book(book, pattern, case, m, work);
    show::count(rt, answer, hash(work));
}

// Counts with the first w of the work words: the others are there because an array's length is fixed.
fn count(rt: &HostRuntime, book: &[u8], pattern: &[u8], case: Case, m: usize, w: usize)
    requires { w ≤ most_words }
{
    let mut work = [0; MOST_WORDS];
    count_in(rt, book, pattern, case, m, &mut work[..w]);
}

// `C`: the macro, the work words, the pattern's length, the book's, the pattern and the book; `c` with case ignored.
pub(crate) fn counting(rt: &HostRuntime, bytes: &[u8], case: Case) -> Option<usize>
    ensures { IfSome result (λ n. (0 < n) × (n ≤ length bytes.now)) }
{
    if bytes.len() < HEAD {
        return None;
    }
    let m = small(bytes, 1);
    let w = small(bytes, 4);
    let book = HEAD + small(bytes, 7);
    let end = book + small(bytes, 10);
    if w > MOST_WORDS {
        return None;
    }
    if end > bytes.len() {
        return None;
    }
    count(rt, &bytes[book..end], &bytes[HEAD..book], case, m, w);
    Some(end)
}

// `J`: two reports.
pub(crate) fn joining(rt: &HostRuntime, bytes: &[u8]) -> Option<usize>
    ensures { IfSome result (λ n. (0 < n) × (n ≤ length bytes.now)) }
{
    if bytes.len() < JOINING {
        return None;
    }
    show::joined(rt, join(report(bytes, 1), report(bytes, 313)));
    Some(JOINING)
}
