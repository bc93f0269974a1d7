// A branch of the whole pattern (document 01, "Patterns"): an optional `^`, pieces, an optional `$`.
ghost use Rattle.pattern.specs.Branches.{EndDone, ReadsBranch, ReadsRest};

use crate::cursor::{Cursor, ends_pieces};
use crate::shape::{Moves, Shape};

// Whether a branch has `^`, its pieces' shape, and whether it has `$`.
#[derive(Clone, Copy)]
pub(crate) struct BranchShape {
    pub start: bool,
    pub pieces: Shape,
    pub end: bool,
}

impl<'a> Cursor<'a> {
    // The optional `$` behind pieces.
    fn branch_end(self, start: bool, pieces: Shape) -> (Cursor<'a>, BranchShape)
        ensures { EndDone self.entry start pieces result }
    {
        let end = self.byte() == b'$';
        let here = if end { self.past() } else { self };
        (here, BranchShape { start, pieces, end })
    }

    // A branch whose optional `^` is passed.
    fn branch_rest(self, start: bool, moves: &mut Moves) -> Option<(Cursor<'a>, BranchShape)>
        ensures { ReadsRest start self.entry moves.old result moves.new }
    {
        let next = self.byte();
        if ends_pieces(next) {
            if start | (next == b'$') {
                return Some(self.branch_end(start, Shape::EMPTY));
            }
            return None;
        }
        let (here, pieces) = self.branch(moves)?;
        Some(here.branch_end(start, pieces))
    }

    // The branch of the whole pattern at the cursor, and the cursor behind it.
    pub(crate) fn pattern_branch(self, moves: &mut Moves) -> Option<(Cursor<'a>, BranchShape)>
        ensures { ReadsBranch self.entry moves.old result moves.new }
    {
        if self.byte() == b'^' {
            return self.past().branch_rest(true, moves);
        }
        self.branch_rest(false, moves)
    }
}
