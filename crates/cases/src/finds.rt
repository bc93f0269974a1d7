// Cases of lines.
ghost use Rattle.std.specs.Prelude.{◌<◌, ◌≤◌, IfSome, length};
ghost use Rattle.find.specs.Answer.{most_words};

use crate::numbers::{hash, large, prepare, small};
use crate::show::{named, refused, text};
use counter::Case;
use find::{FoundLine, MOST_WORDS, find_line};
use refusal::Refusal;

// The bytes in front of the pattern.
const HEAD: usize = 24;

// The most bytes of a case's buffer.
const BUFFER: usize = 65536;

// The macro and the line that are asked for, and the words and bytes that are lent.
#[derive(Clone, Copy)]
struct Question {
    case: Case,
    m: usize,
    k: u64,
    words: usize,
    bytes: usize,
}

// What the buffer holds before a call: no two neighbours alike, so that a byte that changes shows.
fn fresh(buffer: &mut [u8]) {
    for (i, byte) in buffer.iter_mut().enumerate() {
        *byte = 255 - (i % 256) as u8;
    }
}

// What is answered, with the hashes of the buffer and of the work words after it.
fn print_line(rt: &HostRuntime, answer: Result<FoundLine, Refusal>, buffer: u64, work: u64) {
    match answer {
        Ok(line) => {
            named(rt, "line ", line.number);
            named(rt, " length ", line.length);
        }
        Err(r) => refused(rt, r),
    }
    named(rt, " buffer ", buffer);
    named(rt, " work ", work);
    text(rt, "\n");
}

fn find_in(
    rt: &HostRuntime,
    book: &[u8],
    pattern: &[u8],
    q: Question,
    work: &mut [u64],
    buffer: &mut [u8],
)
    requires { length work.old ≤ most_words }
{
    prepare(work);
    fresh(buffer);
    let case = q.case;
    let answer = find_line(book, pattern, case, q.m, q.k, work, buffer);
    print_line(rt, answer, hash(buffer), hash(work));
}

// Lends the first words and bytes: the others are there because an array's length is fixed.
fn find_with(rt: &HostRuntime, book: &[u8], pattern: &[u8], q: Question)
    requires words_le_most_words { q.words ≤ most_words }
    requires bytes_bound { q.bytes ≤ 65536 }
{
    let words = q.words;
    let bytes = q.bytes;
    let mut work = [0; MOST_WORDS];
    let mut buffer = [0; BUFFER];
    find_in(
        rt,
        book,
        pattern,
        q,
        &mut work[..words],
        &mut buffer[..bytes],
    );
}

// `F`: the macro, the work words, the buffer's bytes, k in eight bytes, the pattern's length, the book's, the pattern and the book; `f` with
// case ignored.
pub(crate) fn finds(rt: &HostRuntime, bytes: &[u8], case: Case) -> Option<usize>
    ensures { IfSome result (λ n. (0 < n) × (n ≤ length bytes.now)) }
{
    if bytes.len() < HEAD {
        return None;
    }
    let q = Question {
        case,
        m: small(bytes, 1),
        k: large(bytes, 10),
        words: small(bytes, 4),
        bytes: small(bytes, 7),
    };
    let book = HEAD + small(bytes, 18);
    let end = book + small(bytes, 21);
    if q.words > MOST_WORDS {
        return None;
    }
    if q.bytes > BUFFER {
        return None;
    }
    if end > bytes.len() {
        return None;
    }
    find_with(rt, &bytes[book..end], &bytes[HEAD..book], q);
    Some(end)
}
