// Cases of a book's check, and of bodies.
ghost use Rattle.std.specs.Prelude.{◌<◌, ◌≤◌, IfSome, length};

use crate::numbers::small;
use crate::show;
use counter::{body, check};

// `K`, whether a book is sound: the book's length and the book.
pub(crate) fn checks(rt: &HostRuntime, bytes: &[u8]) -> Option<usize>
    ensures { IfSome result (λ n. (0 < n) × (n ≤ length bytes.now)) }
{
    if bytes.len() < 4 {
        return None;
    }
    let end = 4 + small(bytes, 1);
    if end > bytes.len() {
        return None;
    }
    show::checked(rt, check(&bytes[4..end]));
    Some(end)
}

// `B`, a body: the macro, the book's length and the book.
pub(crate) fn bodies(rt: &HostRuntime, bytes: &[u8]) -> Option<usize>
    ensures { IfSome result (λ n. (0 < n) × (n ≤ length bytes.now)) }
{
    if bytes.len() < 7 {
        return None;
    }
    let m = small(bytes, 1);
    let end = 7 + small(bytes, 4);
    if end > bytes.len() {
        return None;
    }
    // No refusal's number, so that a 0 was written.
    let mut refused = 99;
    let part = body(&bytes[7..end], m, &mut refused);
    show::body(rt, part, refused);
    Some(end)
}
