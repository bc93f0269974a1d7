// Patterns, one to a line of standard input, through `read_pattern`: what each is refused with, or its tables.
#![tactic(auto)]

mod lines;
mod show;

use files::fill;

fn main(rt: HostRuntime) {
    let mut space = [0; 65536];
    let n = fill(&mut rt.stdin(), &mut space).bytes;
    lines::cases(&rt, &space[..n]);
}
