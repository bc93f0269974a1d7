// What the branches of a pattern come to.
ghost use Rattle.std.specs.Prelude.{◌≡◌};
ghost use Rattle.pattern.specs.Summaries.{branch_summary};

use crate::branch::BranchShape;
use crate::shape::union_if;
use stateset::union;

#[derive(Clone, Copy)]
pub(crate) struct Summary {
    // Atoms that can come first in a branch, and in a branch without `^`.
    pub first: u64,
    pub free: u64,
    // Atoms that can end a branch without `$`, and one with it.
    pub ends: u64,
    pub anchored: u64,
    // A branch can match nothing; and one that does not have both anchors can.
    pub empty: bool,
    pub jump: bool,
}

impl Summary {
    // The summary with one branch more.
    pub(crate) fn with_branch(self, branch: BranchShape) -> Summary
        ensures { result ≡ branch_summary self branch.start branch.pieces branch.end }
    {
        let BranchShape { start, pieces, end } = branch;
        Summary {
            first: union(self.first, pieces.first),
            free: union_if(!start, self.free, pieces.first),
            ends: union_if(!end, self.ends, pieces.last),
            anchored: union_if(end, self.anchored, pieces.last),
            empty: self.empty | pieces.nothing,
            jump: self.jump | (pieces.nothing & !(start & end)),
        }
    }
}
