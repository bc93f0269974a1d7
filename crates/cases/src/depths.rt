// Cases of depths.
ghost use Rattle.std.specs.Prelude.{◌<◌, ◌≤◌, IfSome, length};

use crate::numbers::{hash, prepare, small};
use crate::show::{named, refused, text};
use depth::{Delimiters, Depths, depth};
use refusal::Refusal;

// The bytes in front of the book.
const HEAD: usize = 16;

// The most work words of a case: more than any book needs.
const WORDS: usize = 4096;

// A name and a whole number.
fn whole(rt: &HostRuntime, name: &str, z: i64) {
    text(rt, name);
    let _ = rt.print(z);
}

// What is answered, with the hash of the work words after it.
fn print_depths(rt: &HostRuntime, answer: Result<Depths, Refusal>, work: u64) {
    match answer {
        Ok(d) => {
            whole(rt, "end ", d.end);
            whole(rt, " lowest ", d.lowest);
        }
        Err(r) => refused(rt, r),
    }
    named(rt, " work ", work);
    text(rt, "\n");
}

fn depth_in(rt: &HostRuntime, book: &[u8], keys: Delimiters, m: usize, work: &mut [u64])
    requires { length work.old ≤ 4096 }
{
    prepare(work);
    let answer = depth(book, keys.opening, keys.closing, m, work);
    print_depths(rt, answer, hash(work));
}

// Lends the first w words: the others are there because an array's length is fixed.
fn depth_with(rt: &HostRuntime, book: &[u8], keys: Delimiters, m: usize, w: usize)
    requires { w ≤ 4096 }
{
    let mut work = [0; WORDS];
    depth_in(rt, book, keys, m, &mut work[..w]);
}

// `D`: the macro, the work words, the two keys, the book's length and the book.
pub(crate) fn depths(rt: &HostRuntime, bytes: &[u8]) -> Option<usize>
    ensures { IfSome result (λ n. (0 < n) × (n ≤ length bytes.now)) }
{
    if bytes.len() < HEAD {
        return None;
    }
    let m = small(bytes, 1);
    let w = small(bytes, 4);
    // A key is a number of one byte, the lowest of its three.
    let keys = Delimiters {
        opening: bytes[7],
        closing: bytes[10],
    };
    let end = HEAD + small(bytes, 13);
    if w > WORDS {
        return None;
    }
    if end > bytes.len() {
        return None;
    }
    depth_with(rt, &bytes[HEAD..end], keys, m, w);
    Some(end)
}
