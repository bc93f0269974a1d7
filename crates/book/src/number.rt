// Numbers of two bytes.
ghost use Rattle.std.specs.Prelude.{◌≡◌, ◌+◌, ◌<◌, length, drop};
ghost use Rattle.book.specs.Reading.{le16};

// The two-byte number at `at`, low byte first.
pub(crate) fn le16_at(s: &[u8], at: usize) -> u16
    requires { at + 1 < length s.now }
    ensures { result ≡ le16 (drop at s.now) }
{
    u16::from_le_bytes([s[at], s[at + 1]])
}
