// The branches of a pattern (document 01, "Patterns"): one or more, parted by `|`.
ghost use Rattle.pattern.specs.Summaries.{ReadsBranches};

use crate::cursor::Cursor;
use crate::shape::Moves;
use crate::summary::Summary;

impl<'a> Cursor<'a> {
    // The branches from the cursor to the end: how many atoms there are, and what they come to. `a` is what those before it come to.
    pub(crate) fn branches(self, a: Summary, moves: &mut Moves) -> Option<(usize, Summary)>
        ensures { ReadsBranches self.entry a moves.old result moves.new }
    {
        let (here, branch) = self.pattern_branch(moves)?;
        let sum = a.with_branch(branch);
        match here.byte() {
            0 => Some((here.atoms, sum)),
            b'|' => here.past().branches(sum, moves),
            _ => None,
        }
    }
}
