// The cursor of the readers in this crate: "The place reached in the pattern goes from each part of the reader to the next" (document 01,
// "Patterns").
ghost use Rattle.std.specs.Prelude.{◌≡◌, ◌+◌, ◌^◌, ◌<◌};
ghost use Rattle.brackets.specs.Answers.{cursor_at};

// A place in a pattern, at an atom or inside one; any place, since `atom`, which is public, asks for none inside.
#[derive(Clone, Copy)]
pub struct AtomCursor {
    pub at: usize,
}

impl AtomCursor {
    // The cursor so many bytes on.
    pub(crate) fn past(self, n: usize) -> AtomCursor
        requires { self.at + n < 2 ^ 64 }
        ensures { result ≡ cursor_at (self.at + n) }
    {
        AtomCursor { at: self.at + n }
    }
}
