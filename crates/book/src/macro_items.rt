// The items of one macro. Every table of offsets and every macro number is taken; those that fit no macro give no items.
ghost use Rattle.std.specs.Prelude.{◌≡◌, length, slice_get};
ghost use Rattle.book.specs.MacroItems.{decoded, items_from, items_in, part_at, part_from};

use crate::item::{Item, Repeated, read_item};
use crate::layout::Book;
use crate::version::width_of;

// The items of a macro, `count` of them, and keys of 0 behind them: there is no heap for a list of just as many.
#[derive(Clone, Copy)]
pub struct Items {
    pub list: [Repeated; 64],
    pub count: usize,
}

impl Items {
    // The items themselves.
    pub fn as_slice(&self) -> &[Repeated]
        ensures { result.now ≡ decoded self.now }
    {
        &self.list[..self.count.min(64)]
    }
}

// The items that some bytes of a book of a version hold, up to the 64 that a macro has at the most.
fn items_in(part: &[u8], version: u16) -> Items
    ensures { result ≡ items_in version part.now }
{
    let width = width_of(version);
    let nothing = Repeated {
        item: Item::Key(0),
        times: 0,
    };
    let mut list = [nothing; 64];
    for count in 0..64 {
        let Some(next) = read_item(part, width * count, version) else {
            return Items { list, count };
        };
        list[count] = next;
    }
    Items { list, count: 64 }
}

impl<'a> Book<'a> {
    // The bytes of macro i's items: from behind its item count to where the next macro starts.
    pub(crate) fn part(&self, i: usize) -> &'a [u8]
        ensures part { result.now ≡ part_from self.now.bytes.now self.now.offsets i }
        ensures place { result.ref_ptr ≡ part_at self.now.bytes.ref_ptr self.now.bytes.now self.now.offsets i }
    {
        if 1024 <= i {
            return &self.bytes[..0];
        }
        let count = self.offsets[i];
        let end = self.offsets[i + 1];
        if end < 2 {
            return &self.bytes[..0];
        }
        if end - 2 < count {
            return &self.bytes[..0];
        }
        if self.bytes.len() < end {
            return &self.bytes[..0];
        }
        let start = count + 2;
        &self.bytes[start..end]
    }

    // The items of macro i.
    pub fn items(&self, i: usize) -> Items
        ensures { result ≡ items_from self.now.bytes.now self.now.offsets i }
    {
        items_in(self.part(i), self.version())
    }

    // How many items macro i has.
    pub fn item_count(&self, i: usize) -> usize
        ensures { result ≡ length (decoded (items_from self.now.bytes.now self.now.offsets i)) }
    {
        (self.part(i).len() / width_of(self.version())).min(64)
    }

    // Item k of macro i alone, for whoever has no room for all of them.
    pub fn item(&self, i: usize, k: usize) -> Option<Repeated>
        ensures { result ≡ slice_get (decoded (items_from self.now.bytes.now self.now.offsets i)) k }
    {
        if 64 <= k {
            return None;
        }
        let version = self.version();
        read_item(self.part(i), width_of(version) * k, version)
    }
}
