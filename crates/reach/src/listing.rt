// The reach list of a macro in running order: the walk that the run takes, with each macro entered once.
ghost use Rattle.std.specs.Prelude.{◌≡◌, length, take};
ghost use Rattle.book.specs.Reading.{macros_in};
ghost use Rattle.reach.specs.Entries.{entries};
ghost use Rattle.reach.specs.Answer.{ReachAnswer, reached_figures, require_entries};
ghost use Rattle.reach.specs.Promises.{Entered, Entering, Walked, called_by};

use book::{Book, Item, space_for};
use refusal::Refusal;

// A walk through a book: which macros are listed already, and the list of them, so many at its front: it is lent, and there is no heap for one
// that grows.
#[derive(Drop)]
struct Walker<'a, 'b> {
    book: &'a Book<'a>,
    marks: [bool; 1024],
    list: &'b mut [u16],
    listed: usize,
}

impl<'a, 'b> Walker<'a, 'b> {
    // Enters macro i: unless it is listed, it is listed, and behind it what its items enter. Calls go to lower macros, so a listed macro
    // that is called has been left, and nothing in it is new.
    #[cycle(walk)]
    fn enter(&mut self, i: usize)
        requires { Entering self.old i }
        ensures same { self.new.list.ghost_name ≡ self.old.list.ghost_name }
        ensures book { self.new.book ≡ self.old.book }
        ensures walk { Walked self.old (entries (macros_in self.old.book.now.bytes.now) i) self.new }
    {
        if self.marks[i] {
            return;
        }
        self.marks[i] = true;
        self.list[self.listed] = i as u16;
        self.listed += 1;
        self.enter_items(i);
    }

    // Enters each macro that the items of macro i call, in order. However often an item stands there, its macro is entered first at the
    // first time. The items are read one by one: the walk is in up to 1,024 macros at once, and a copy of their items would take its stack.
    #[cycle(walk)]
    fn enter_items(&mut self, i: usize)
        requires { Entered self.old i }
        ensures same { self.new.list.ghost_name ≡ self.old.list.ghost_name }
        ensures book { self.new.book ≡ self.old.book }
        ensures walk { Walked self.old (called_by (macros_in self.old.book.now.bytes.now) i) self.new }
    {
        for k in 0..64 {
            let Some(next) = self.book.item(i, k) else {
                break;
            };
            if let Item::Call(j) = next.item {
                self.enter(j as usize);
            }
        }
    }
}

// The reach list of macro m (document 02, S-5), from the front of a lent list of m + 1 entries or more: how many numbers it has.
pub fn reach_list(book: &[u8], m: usize, list: &mut [u16]) -> Result<usize, Refusal>
    ensures { ReachAnswer (require_entries m (length list.old) book.now) m (reached_figures result) list.old list.new }
{
    let book = Book::open(book)?;
    space_for(book.macros as usize, m, 1, list.len())?;
    let mut walk = Walker {
        book: &book,
        marks: [false; 1024],
        list,
        listed: 0,
    };
    walk.enter(m);
    Ok(walk.listed)
}
