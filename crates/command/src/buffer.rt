// How much of an input is read, and the part of a buffer that was.
ghost use Rattle.std.specs.Prelude.{◌≡◌, take};

// The bytes of a book that are read: one more than the longest sound book has, in version 2, 7 and 1,024 macros of 64 items, 258 bytes
// each. A book of any length is answered by these.
pub const BOOK_READ: usize = 264199 + 1;

// The bytes of a pattern that are read: one more than the longest pattern has.
pub const PATTERN_READ: usize = 128 + 1;

// The first n bytes of a buffer, or all of it.
pub fn read_part(buffer: &[u8], n: usize) -> &[u8]
    ensures { result.now ≡ take n buffer.now }
{
    &buffer[..n.min(buffer.len())]
}
