// One item of a book. Everything that looks at items goes through `read_item`.
ghost use Rattle.std.specs.Prelude.{◌≡◌, ◌+◌, ◌≤◌, length, drop};
ghost use Rattle.book.specs.Format.{width};
ghost use Rattle.book.specs.Reading.{item_of, times_in};
ghost use Rattle.book.specs.MacroItems.{item_read};

use crate::number::le16_at;
use crate::version::width_of;

// Document 01, "The book": an item from 1 to 255 is a key, 256 + j calls macro j. A key of 0 is in no sound book.
#[derive(Clone, Copy)]
pub enum Item {
    Key(u8),
    Call(u16),
}

// An item, and how often it stands there.
#[derive(Clone, Copy)]
pub struct Repeated {
    pub item: Item,
    pub times: u16,
}

// The repeat count of the item whose bytes start at `at`; an item of version 1 stands once.
fn times_at(s: &[u8], at: usize, version: u16) -> u16
    requires { at + width version ≤ length s.now }
    ensures { result ≡ times_in version (drop at s.now) }
{
    if version == 1 {
        return 1;
    }
    le16_at(s, at + 2)
}

// The item whose bytes start at `at`, in a book of a version, unless there are fewer bytes than an item has.
pub(crate) fn read_item(s: &[u8], at: usize, version: u16) -> Option<Repeated>
    ensures { result ≡ item_read version (drop at s.now) }
{
    let width = width_of(version);
    if s.len() < width {
        return None;
    }
    if s.len() - width < at {
        return None;
    }
    let item = item_of(le16_at(s, at));
    let times = times_at(s, at, version);
    Some(Repeated { item, times })
}

// What an item's number stands for.
pub fn item_of(code: u16) -> Item
    ensures { result ≡ item_of code }
{
    if code < 256 {
        Item::Key(code as u8)
    } else {
        Item::Call(code - 256)
    }
}
