// The one write of what stands in a buffer.
use files::say_failure;

// The first n bytes of a buffer on standard output, and whether they were written. What fails is said on standard error. The number stands beside
// the buffer, as the functions that fill one answer it; so it is looked at here, and not at each call.
pub fn write_front(rt: &HostRuntime, out: &[u8], n: usize) -> bool {
    let Some(text) = out.get(..n) else {
        return false;
    };
    match rt.write_all(text) {
        Ok(()) => true,
        Err(error) => {
            say_failure(rt, b"standard output", error);
            false
        }
    }
}
