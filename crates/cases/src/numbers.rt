// Numbers and reports as the cases hold them, and the hash that stands for many words.
ghost use Rattle.std.specs.Prelude.{◌+◌, ◌<◌, ◌≤◌, length};
ghost use Rattle.find.specs.Answer.{most_words};

use counter::Report;

// The number of three bytes at `at`, low byte first. It is so small that a case's lengths have a sum.
pub(crate) fn small(bytes: &[u8], at: usize) -> usize
    requires { at + 3 ≤ length bytes.now }
    ensures { result < 16777216 }
{
    bytes[at] as usize + 256 * (bytes[at + 1] as usize) + 65536 * (bytes[at + 2] as usize)
}

// A number of eight bytes, low byte first.
pub(crate) fn large(bytes: &[u8], at: usize) -> u64
    requires { at + 8 ≤ length bytes.now }
{
    let mut eight = [0; 8];
    eight.copy_from_slice(&bytes[at..at + 8]);
    u64::from_le_bytes(eight)
}

fn rows(bytes: &[u8], at: usize) -> [u64; 32]
    requires { at + 256 ≤ length bytes.now }
{
    let mut rows = [0; 32];
    for q in 0..32 {
        rows[q] = large(bytes, at + q * 8);
    }
    rows
}

// A report of 39 numbers, in the order of its fields.
pub(crate) fn report(bytes: &[u8], at: usize) -> Report
    requires { at + 312 ≤ length bytes.now }
{
    let rows = rows(bytes, at + 8);
    Report {
        s: large(bytes, at),
        rows,
        flag: large(bytes, at + 264),
        heads: large(bytes, at + 272),
        closed: large(bytes, at + 280),
        tail: large(bytes, at + 288),
        trimmed: large(bytes, at + 296),
        edges: large(bytes, at + 304),
    }
}

// What the work words hold before a call: no two alike and none of them zero, so that a word that changes shows.
pub(crate) fn prepare(work: &mut [u64])
    requires { length work.old ≤ most_words }
{
    for (i, word) in work.iter_mut().enumerate() {
        *word = 1000003 * (i as u64 + 1);
    }
}

// Numbers as one: it begins with 7, and goes on with 31 times the number so far and the next, modulo 2^64.
pub(crate) fn hash<T: Copy + Into<u64>>(numbers: &[T]) -> u64 {
    let mut h: u64 = 7;
    for &n in numbers {
        h = (h << 5).wrapping_sub(h).wrapping_add(n.into());
    }
    h
}
