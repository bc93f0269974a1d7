// Cases from standard input through the operations of `book`, `counter`, `depth` and `find`: what they answer to each.
#![tactic(auto)]

mod books;
mod counts;
mod depths;
mod finds;
mod numbers;
mod plain;
mod reach_lists;
mod show;
mod stream;

use files::fill;

fn main(rt: HostRuntime) {
    // A stream is at most this long.
    let mut space = [0; 458752];
    let n = fill(&mut rt.stdin(), &mut space).bytes;
    stream::all(&rt, &space[..n]);
}
