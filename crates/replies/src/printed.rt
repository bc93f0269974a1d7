// What is printed, and what it tells.

// The length of the text, which stands at the front of a buffer, and the answer that it tells. The buffers are lent as whole arrays, since the
// contracts say what all of a buffer holds afterwards.
#[derive(Clone, Copy)]
pub struct Reply<T> {
    pub length: usize,
    pub found: T,
}
