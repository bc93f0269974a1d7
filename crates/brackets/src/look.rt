// A look at a pattern's bytes.
ghost use Rattle.std.specs.Prelude.{◌≡◌, get_or};

// The byte at a place, or 0 behind the end: a pattern holds no 0.
pub fn peek(s: &[u8], at: usize) -> u8
    ensures { result ≡ get_or s.now at 0 }
{
    s.get(at).copied().unwrap_or(0)
}
