// Cases without a book: the pattern's length, the data's, the pattern and the data.
ghost use Rattle.std.specs.Prelude.{◌<◌, ◌≤◌, IfSome, length};

use crate::numbers::small;
use crate::show;
use counter::{Case, count_run, test_line};

// The bytes in front of the pattern.
const HEAD: usize = 7;

// `L`, the one-line test; `l` with case ignored.
pub(crate) fn lines(rt: &HostRuntime, bytes: &[u8], case: Case) -> Option<usize>
    ensures { IfSome result (λ n. (0 < n) × (n ≤ length bytes.now)) }
{
    if bytes.len() < HEAD {
        return None;
    }
    let line = HEAD + small(bytes, 1);
    let end = line + small(bytes, 4);
    if end > bytes.len() {
        return None;
    }
    show::line(rt, test_line(&bytes[HEAD..line], case, &bytes[line..end]));
    Some(end)
}

// `R`, the count over a plain run; `r` with case ignored.
pub(crate) fn runs(rt: &HostRuntime, bytes: &[u8], case: Case) -> Option<usize>
    ensures { IfSome result (λ n. (0 < n) × (n ≤ length bytes.now)) }
{
    if bytes.len() < HEAD {
        return None;
    }
    let run = HEAD + small(bytes, 1);
    let end = run + small(bytes, 4);
    if end > bytes.len() {
        return None;
    }
    show::run(rt, count_run(&bytes[HEAD..run], case, &bytes[run..end]));
    Some(end)
}
