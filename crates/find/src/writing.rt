// The keys of a line, written to the front of a buffer.
ghost use Rattle.std.specs.Prelude.{◌≡◌, ◌∷◌, [], ◌+◌, ◌≤◌, length};
ghost use Rattle.runs.specs.Kept.{times};
ghost use Rattle.book.specs.Expansion.{expansion, keys_of};
ghost use Rattle.book.specs.Reading.{macros_in};
ghost use Rattle.find.specs.Promises.{ItemFits, WriteFits, buffer_after, passes_before, pen_after};

use crate::filling::item_extent;
use book::{Book, Item, Repeated};

// How many line ends are to be skipped, how many keys to be written then, and where the next one goes.
#[derive(Clone, Copy)]
pub(crate) struct Pen {
    pub(crate) ends: u64,
    pub(crate) left: usize,
    pub(crate) at: usize,
}

impl Pen {
    // One key.
    fn write_key(self, key: u8, buffer: &mut [u8]) -> Pen
        requires { self.at + self.left ≤ length buffer.old }
        ensures behind { result ≡ pen_after self (key ∷ []) }
        ensures written { buffer.new ≡ buffer_after self (key ∷ []) buffer.old }
    {
        if self.left == 0 {
            return self;
        }
        if self.ends == 0 {
            buffer[self.at] = key;
            return Pen {
                ends: 0,
                left: self.left - 1,
                at: self.at + 1,
            };
        }
        if key == b'\n' {
            return Pen {
                ends: self.ends - 1,
                ..self
            };
        }
        self
    }
}

// How many of n passes with so many line ends each lie before the place that some line ends lead to.
#[tactic(auto, unfolding(crate::specs::Promises::passes_before))]
fn passes_before(n: u64, each: u64, ends: u64) -> u64
    ensures { result ≡ passes_before n each ends }
{
    if ends == 0 {
        return 0;
    }
    if each == 0 {
        return n;
    }
    n.min((ends - 1) / each)
}

// All passes of an item. Those that are skipped whole are not entered, nor those behind the last key that is written.
#[cycle(write_item_write_macro)]
fn write_item(book: &Book, extents: &[u64], next: Repeated, pen: Pen, buffer: &mut [u8]) -> Pen
    requires { ItemFits book.now.bytes.now book.now.offsets extents.now next.item pen buffer.old }
    ensures behind { result ≡ pen_after pen (times next.times (keys_of (expansion (macros_in book.now.bytes.now)) next.item)) }
    ensures written { buffer.new ≡ buffer_after pen (times next.times (keys_of (expansion (macros_in book.now.bytes.now)) next.item)) buffer.old }
{
    if pen.left == 0 {
        return pen;
    }
    let all = u64::from(next.times);
    let extent = item_extent(next.item, extents);
    let skipped = passes_before(all, extent.ends, pen.ends);
    let mut now = Pen {
        ends: pen.ends - skipped * extent.ends,
        ..pen
    };
    for _ in skipped..all {
        if now.left == 0 {
            return now;
        }
        now = match next.item {
            Item::Key(k) => now.write_key(k, buffer),
            Item::Call(j) => write_macro(book, extents, j as usize, now, buffer),
        };
    }
    now
}

// The run of macro i. Its items are read one by one: there may be 1,024 macros, one inside the other.
#[cycle(write_item_write_macro)]
pub(crate) fn write_macro(
    book: &Book,
    extents: &[u64],
    i: usize,
    pen: Pen,
    buffer: &mut [u8],
) -> Pen
    requires { WriteFits book.now.bytes.now book.now.offsets i extents.now pen buffer.old }
    ensures behind { result ≡ pen_after pen (expansion (macros_in book.now.bytes.now) i) }
    ensures written { buffer.new ≡ buffer_after pen (expansion (macros_in book.now.bytes.now) i) buffer.old }
{
    let mut now = pen;
    for k in 0..64 {
        let Some(next) = book.item(i, k) else {
            return now;
        };
        now = write_item(book, extents, next, now, buffer);
    }
    now
}
