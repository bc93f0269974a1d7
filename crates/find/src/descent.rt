// The walk down the calls, to the end of the line that is sought.
ghost use Rattle.std.specs.Prelude.{◌<◌, ◌≤◌};

use crate::filling::item_extent;
use crate::passes::{closes, skip};
use book::{Book, Item, Repeated};
use extents::{Extent, WIDTH, joined_extents, load_extent, no_extent, repeated_extent};
use pattern::Tables;
use reports::{BEHIND_ROWS, SpanCount, empty_count, extended, in_report, joined, load};

// A place in a run: what is kept of the keys before it, with a line end in front of them, so that every line is closed between two; and
// how far they go.
#[derive(Clone, Copy)]
struct Place {
    count: SpanCount,
    extent: Extent,
}

impl Place {
    ghost use Rattle.find.specs.Promises.{Starts};

    // The start of a run.
    fn start(tables: &Tables) -> Place
        ensures { Starts tables.now result }
    {
        let none = empty_count(tables.accepting.states as u64);
        Place {
            count: extended(none, b'\n', tables),
            extent: no_extent(),
        }
    }
}

// The place behind some passes of an item.
#[derive(Clone, Copy)]
struct Past {
    at: Place,
    passes: u16,
}

// The item in which the line ends, and the place before the pass in which it does.
#[derive(Clone, Copy)]
struct Stop {
    item: Item,
    at: Place,
}

// How many line ends stand before a line, and how many keys it has, 2^64 - 2 if there are more.
#[derive(Clone, Copy)]
pub(crate) struct Located {
    pub(crate) ends: u64,
    pub(crate) length: u64,
}

// The k-th matching line of macro m's run under the pattern of these tables, and the work words with the reports and the extents of macros 0
// to m.
#[derive(Clone, Copy)]
pub(crate) struct Search<'a> {
    pub(crate) tables: &'a Tables,
    pub(crate) reports: &'a [u64],
    pub(crate) extents: &'a [u64],
    pub(crate) m: usize,
    pub(crate) k: u64,
    ghost few: { tables.now.accepting.states ≤ 32 },
}

// The most keys of a line that are told.
const LONGEST: u64 = u64::MAX - 1;

impl<'a> Search<'a> {
    ghost use Rattle.find.specs.Promises.{Descends, Locates, PassOf, PastItem, RunOf, SearchIn, StopIn};

    // What is kept of macro i's run.
    fn run_of(&self, i: usize) -> SpanCount
        requires { i < 65536 }
        ensures { RunOf self.now i result }
    {
        let states = self.tables.accepting.states;
        let at = i * (states + BEHIND_ROWS);
        in_report(load(self.reports, at, states as u64))
    }

    // One pass of an item.
    fn pass_of(&self, item: Item) -> SpanCount
        ensures { PassOf self.now item result }
    {
        let none = empty_count(self.tables.accepting.states as u64);
        match item {
            Item::Key(k) => extended(none, k, self.tables),
            Item::Call(j) => self.run_of(j as usize),
        }
    }

    // The passes of an item before the line's end.
    fn past_item(&self, from: Place, next: Repeated) -> Past
        ensures { PastItem self.now from next.item next.times result }
    {
        let pass = self.pass_of(next.item);
        let skipped = skip(from.count, pass, 1, next.times, self.k);
        let passes = skipped.passes;
        let one = item_extent(next.item, self.extents);
        let extent = joined_extents(from.extent, repeated_extent(one, u64::from(passes)));
        let at = Place {
            count: skipped.before,
            extent,
        };
        Past { at, passes }
    }

    // The item of a macro in which the line ends.
    fn stop_in(&self, items: &[Repeated], from: Place) -> Stop
        ensures { StopIn self.now from items.now result }
    {
        let mut at = from;
        for next in items {
            let past = self.past_item(at, *next);
            at = past.at;
            if past.passes < next.times {
                return Stop {
                    item: next.item,
                    at,
                };
            }
        }
        // Not reached: the line ends in one of the items.
        Stop {
            item: Item::Key(b'\n'),
            at,
        }
    }

    // The place of the line end that closes the line. By no `for`: from a macro it goes on in the one that an item calls.
    fn descend(&self, book: &Book) -> Place
        requires { SearchIn book.now.bytes.now book.now.offsets self.now }
        ensures { Descends book.now.bytes.now self.now result }
    {
        let mut i = self.m;
        let mut at = Place::start(self.tables);
        loop {
            let items = book.items(i);
            let stop = self.stop_in(items.as_slice(), at);
            at = stop.at;
            match stop.item {
                Item::Key(_) => return at,
                Item::Call(j) => i = j as usize,
            }
        }
    }

    // Where the line is, where there is one: closed by a line end, or the last one.
    pub(crate) fn locate(&self, book: &Book) -> Located
        requires { SearchIn book.now.bytes.now book.now.offsets self.now }
        ensures { Locates book.now.bytes.now self.now result }
    {
        let first = Place::start(self.tables);
        let run = joined(first.count, self.run_of(self.m));
        if !closes(run, self.k) {
            let whole = load_extent(self.extents, self.m * WIDTH);
            return Located {
                ends: whole.ends,
                length: whole.last.min(LONGEST),
            };
        }
        let at = self.descend(book);
        // A CR in front of the line end is no key of the line.
        let trailing = at.count.span.edges.trailing;
        let keys = at.extent.last.saturating_sub(trailing as u64);
        Located {
            ends: at.extent.ends,
            length: keys.min(LONGEST),
        }
    }
}
