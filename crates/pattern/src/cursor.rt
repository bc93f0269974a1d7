// The readers of what stands inside a branch: alternative list, branch, piece and group read each other in a cycle, and the
// bytes left fall. Tables of keys and states are lent; the cursor and an expression's shape go by value.
ghost use Rattle.std.specs.Prelude.{◌≡◌, ◌+◌, ◌^◌, ◌≤◌, ◌<◌, get_or, length, true};
ghost use Rattle.runs.specs.Keys.{is_line};
ghost use Rattle.pattern.specs.Reader.{ends_pieces};

use crate::shape::{Moves, Shape, link};
use brackets::peek;
use letters::Case;

// A place in a pattern, how many atoms stand before it, and whether case is ignored. The pattern is a line that is not too long, and
// each atom before the place has a byte there, so that places and numbers of atoms are small.
#[derive(Clone, Copy)]
pub(crate) struct Cursor<'a> {
    pub bytes: &'a [u8],
    pub at: usize,
    pub atoms: usize,
    pub case: Case,
    ghost inside: { at ≤ length bytes.now },
    ghost short: { length bytes.now ≤ 128 },
    ghost few: { atoms ≤ at },
    ghost clean: { is_line bytes.now ≡ true },
}

// A reader hands out the cursor behind what it read and the shape of that, or none at a fault.
impl<'a> Cursor<'a> {
    ghost use Rattle.pattern.specs.Reader.{Mode};
    ghost use Rattle.pattern.specs.Cycle.{Moved, Past, Reads, Repeats, Starts, repeat_enter};

    // The cursor at a pattern's start.
    pub(crate) fn start(bytes: &'a [u8], case: Case) -> Cursor<'a>
        requires { (length bytes.now ≤ 128) × (is_line bytes.now ≡ true) }
        ensures { Starts bytes.now case result }
    {
        Cursor {
            bytes,
            at: 0,
            atoms: 0,
            case,
        }
    }

    // The byte at the cursor, or 0 at the end: a pattern holds no 0.
    pub(crate) fn byte(self) -> u8
        ensures { result ≡ get_or self.entry.bytes.now self.entry.at 0 }
    {
        peek(self.bytes, self.at)
    }

    // The cursor at a later place, with so many atoms more before it.
    pub(crate) fn advanced(self, at: usize, more: usize) -> Cursor<'a>
        requires { (at ≤ length self.bytes.now) × (self.atoms + more ≤ at) }
        ensures { Moved self.entry at (self.entry.atoms + more) result }
    {
        Cursor {
            bytes: self.bytes,
            at,
            atoms: self.atoms + more,
            case: self.case,
        }
    }

    // The cursor behind the byte at it.
    pub(crate) fn past(self) -> Cursor<'a>
        requires { 1 ≤ get_or self.bytes.now self.at 0 }
        ensures { Past self.entry result }
    {
        self.advanced(self.at + 1, 0)
    }

    // The mark of repetition behind an expression, if there is one.
    fn repetition(self, p: Shape, enter: &mut [u64; 32]) -> (Cursor<'a>, Shape)
        requires { p.last < 2 ^ 32 }
        ensures read { Repeats self.entry p result }
        ensures table { enter.new ≡ repeat_enter (get_or self.entry.bytes.now self.entry.at 0) p enter.old }
    {
        let optional = Shape { nothing: true, ..p };
        match self.byte() {
            b'*' => {
                link(enter, p.last, p.first);
                (self.past(), optional)
            }
            b'+' => {
                link(enter, p.last, p.first);
                (self.past(), p)
            }
            b'?' => (self.past(), optional),
            _ => (self, p),
        }
    }

    // An alternative list: branches parted by `|`.
    #[cycle(alternatives_branch_group_piece)]
    fn alternatives(self, moves: &mut Moves) -> Option<(Cursor<'a>, Shape)>
        ensures { Reads Mode.alts self.entry moves.old result moves.new }
    {
        let (here, left) = self.branch(moves)?;
        if here.byte() != b'|' {
            return Some((here, left));
        }
        let (end, right) = here.past().alternatives(moves)?;
        Some((end, left.or(right)))
    }

    // A branch without its anchors: pieces up to the end, a `|`, a `)` or a `$`.
    #[cycle(alternatives_branch_group_piece)]
    pub(crate) fn branch(self, moves: &mut Moves) -> Option<(Cursor<'a>, Shape)>
        ensures { Reads Mode.branch self.entry moves.old result moves.new }
    {
        let (here, left) = self.piece(moves)?;
        if ends_pieces(here.byte()) {
            return Some((here, left));
        }
        let (end, right) = here.branch(moves)?;
        link(&mut moves.enter, left.last, right.first);
        Some((end, left.then(right)))
    }

    // A piece: an atom or a group, then at most one mark of repetition.
    #[cycle(alternatives_branch_group_piece)]
    fn piece(self, moves: &mut Moves) -> Option<(Cursor<'a>, Shape)>
        ensures { Reads Mode.piece self.entry moves.old result moves.new }
    {
        if self.byte() == b'(' {
            let (here, shape) = self.past().group(moves)?;
            return Some(here.repetition(shape, &mut moves.enter));
        }
        let (here, shape) = self.atom(&mut moves.keys)?;
        Some(here.repetition(shape, &mut moves.enter))
    }

    // A group, whose `(` is passed.
    #[cycle(alternatives_branch_group_piece)]
    fn group(self, moves: &mut Moves) -> Option<(Cursor<'a>, Shape)>
        ensures { Reads Mode.group self.entry moves.old result moves.new }
    {
        let (here, shape) = self.alternatives(moves)?;
        if here.byte() != b')' {
            return None;
        }
        Some((here.past(), shape))
    }
}

// Whether a byte ends the pieces of a branch: the end, `|`, `)` or `$`.
pub(crate) fn ends_pieces(b: u8) -> bool
    ensures { result ≡ ends_pieces b }
{
    matches!(b, 0 | b'|' | b')' | b'$')
}
