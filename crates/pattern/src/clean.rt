// A look at all of a pattern's bytes before it is read.
ghost use Rattle.std.specs.Prelude.{◌≡◌};
ghost use Rattle.runs.specs.Keys.{is_line};

// Whether no byte is 0 or 10.
pub(crate) fn clean(s: &[u8]) -> bool
    ensures { result ≡ is_line s.now }
{
    s.iter().all(|&b| (b != 0) & (b != b'\n'))
}
