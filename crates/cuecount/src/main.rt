// `cuecount`: standard input is the pattern, LF, the book; it prints `lines N steps S` or `refused R`. Where standard input cannot be
// read it prints nothing, and says why on standard error.
#![tactic(auto)]

ghost use Rattle.std.specs.Prelude.{◌≡◌, length};

use command::READ;
use files::read_standard;
use output::{LINE, write_front};
use replies::program_reply;

// What was read of standard input, into a byte more than the program takes: by that byte a longer input is seen to be longer.
fn input_in<'a>(rt: &HostRuntime, space: &'a mut [u8]) -> Option<&'a [u8]>
    requires { length space.old ≡ READ }
{
    let n = read_standard(rt, space)?;
    Some(&space[..n])
}

fn main(rt: HostRuntime) {
    let mut space = [0; READ];
    let Some(input) = input_in(&rt, &mut space) else {
        return;
    };
    let mut out = [0; LINE];
    let length = program_reply(input, &mut out);
    write_front(&rt, &out, length);
}
