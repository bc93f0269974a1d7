// The extents of macros 0 to m, four work words a macro.
ghost use Rattle.std.specs.Prelude.{◌≡◌, suc};
ghost use Rattle.runs.specs.Kept.{words_over};
ghost use Rattle.book.specs.Expansion.{expansion};
ghost use Rattle.book.specs.Reading.{macros_in};
ghost use Rattle.extents.specs.Extents.{extent_of};
ghost use Rattle.extents.specs.Words.{width};
ghost use Rattle.find.specs.Answer.{extent_words_of};
ghost use Rattle.find.specs.Promises.{MacroAt, WordsFit, item_extent};

use book::{Book, Item};
use extents::{
    Extent, WIDTH, joined_extents, key_extent, load_extent, no_extent, repeated_extent,
    store_extent,
};

// One item; a called macro's extent stands among the words.
#[tactic(auto, unfolding(crate::specs::Promises::item_extent))]
pub(crate) fn item_extent(item: Item, extents: &[u64]) -> Extent
    ensures { result ≡ item_extent extents.now item }
{
    match item {
        Item::Key(k) => key_extent(k),
        Item::Call(j) => load_extent(extents, j as usize * WIDTH),
    }
}

// The run of macro i, whose calls go to macros whose extents stand already. `depth` has such a loop over what it keeps, `counter` another: over a
// trait they would be no shorter, since it would have six methods and their laws, each under what its own joining asks for.
fn macro_extent(book: &Book, i: usize, extents: &[u64]) -> Extent
    requires { MacroAt book.now.bytes.now book.now.offsets i extents.now }
    ensures { result ≡ extent_of (expansion (macros_in book.now.bytes.now) i) }
{
    let items = book.items(i);
    let mut all = no_extent();
    for next in items.as_slice() {
        let passes = repeated_extent(item_extent(next.item, extents), u64::from(next.times));
        all = joined_extents(all, passes);
    }
    all
}

// The words of macros 0 to m, in turn; no trait over what is kept, as above.
pub(crate) fn fill_extents(book: &Book, m: usize, extents: &mut [u64])
    requires { WordsFit book.now.bytes.now book.now.offsets m extents.old }
    ensures { extents.new ≡ words_over (extent_words_of (macros_in book.now.bytes.now)) width (suc m) extents.old }
{
    for i in 0..=m {
        let run = macro_extent(book, i, extents);
        store_extent(extents, i * WIDTH, run);
    }
}
