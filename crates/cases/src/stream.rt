// The cases, one behind the other, as docs/src/second/PROTOCOL.md has them: a byte for the kind, and what the functions of the kinds
// say. A number has three bytes, low byte first; in a report it has eight.
ghost use Rattle.std.specs.Prelude.{◌<◌, ◌≤◌, IfSome, length};

use crate::books::{bodies, checks};
use crate::counts::{counting, joining};
use crate::depths::depths;
use crate::finds::finds;
use crate::plain::{lines, runs};
use crate::reach_lists::reaches;
use crate::show;
use counter::Case;

// Answers the case that begins some bytes. The result, as that of each kind's function, is how many of them the case has; none if it is
// damaged.
fn first(rt: &HostRuntime, bytes: &[u8]) -> Option<usize>
    ensures { IfSome result (λ n. (0 < n) × (n ≤ length bytes.now)) }
{
    match bytes.first()? {
        b'L' => lines(rt, bytes, Case::Sensitive),
        b'l' => lines(rt, bytes, Case::Ignored),
        b'R' => runs(rt, bytes, Case::Sensitive),
        b'r' => runs(rt, bytes, Case::Ignored),
        b'C' => counting(rt, bytes, Case::Sensitive),
        b'c' => counting(rt, bytes, Case::Ignored),
        b'K' => checks(rt, bytes),
        b'B' => bodies(rt, bytes),
        b'H' => reaches(rt, bytes),
        b'D' => depths(rt, bytes),
        b'F' => finds(rt, bytes, Case::Sensitive),
        b'f' => finds(rt, bytes, Case::Ignored),
        b'J' => joining(rt, bytes),
        _ => None,
    }
}

// Answers every case up to a damaged one, behind which it is not known where the next begins. By no `for`: how long a case is, is known behind it.
pub(crate) fn all(rt: &HostRuntime, bytes: &[u8]) {
    let mut rest = bytes;
    while !rest.is_empty() {
        let Some(size) = first(rt, rest) else {
            show::text(rt, "bad case\n");
            return;
        };
        rest = &rest[size..];
    }
}
