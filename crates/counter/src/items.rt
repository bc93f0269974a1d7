// The report of a macro's items, one after another.
ghost use Rattle.std.specs.Prelude.{◌≤◌};
ghost use Rattle.counter.specs.Promises.{AfterItem, AfterPasses, ItemsCounted, ItemsFit};

use book::{Item, Repeated};
use pattern::Tables;
use reports::{
    BEHIND_ROWS, Report, SpanCount, empty_count, extended, in_report, joined, load, repeated,
    report_of,
};
use spans::pairs_in;

// What a macro's items come to.
#[derive(Clone, Copy)]
pub(crate) struct MacroCount {
    pub(crate) report: Report,
    pub(crate) steps: u64,
}

// A run with one item more, once; a called macro's report stands in the work words.
fn after_item(a: SpanCount, item: Item, work: &[u64], tables: &Tables) -> SpanCount
    requires { a.span.s ≤ 32 }
    ensures { AfterItem tables.now.keys tables.now.enter tables.now.accepting work.now a item result }
{
    match item {
        Item::Key(k) => extended(a, k, tables),
        Item::Call(j) => {
            let s = a.span.s;
            let at = j as usize * (s as usize + BEHIND_ROWS);
            let called = in_report(load(work, at, s));
            joined(a, called)
        }
    }
}

// A run with one item more, as often as it stands there: once as ever, else one pass of it, repeated.
fn after_passes(a: SpanCount, next: Repeated, work: &[u64], tables: &Tables) -> SpanCount
    requires { a.span.s ≤ 32 }
    ensures { AfterPasses tables.now.keys tables.now.enter tables.now.accepting work.now a next.item next.times result }
{
    if next.times == 1 {
        return after_item(a, next.item, work, tables);
    }
    let none = empty_count(a.span.s);
    let pass = after_item(none, next.item, work, tables);
    joined(a, repeated(pass, next.times))
}

// All items of a macro. No trait over what is kept: `macro_extent` of `find` says why.
pub(crate) fn items_report(items: &[Repeated], work: &[u64], tables: &Tables) -> MacroCount
    requires { ItemsFit items.now tables.now.accepting }
    ensures { ItemsCounted tables.now.keys tables.now.enter tables.now.accepting work.now items.now result }
{
    let mut kept = empty_count(tables.accepting.states as u64);
    let mut steps = 0;
    for next in items {
        steps += pairs_in(kept.span);
        kept = after_passes(kept, *next, work, tables);
    }
    MacroCount {
        report: report_of(kept),
        steps,
    }
}
