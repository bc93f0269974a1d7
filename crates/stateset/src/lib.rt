// Sets of numbers below 64 in one word: p is in the set exactly if bit p is 1.
#![tactic(auto)]

ghost use Rattle.std.specs.Prelude.{◌≡◌, cond, ◌%◌, ◌^◌};
ghost use Rattle.std.specs.Int.Bits.{bit_and, bit_or};
ghost use Rattle.stateset.specs.Set.{bit, common, image_of, word};
ghost use Rattle.runs.specs.Counts.{count_below};

// The set of p alone; a p that no word holds gives the empty set.
pub fn only(p: u32) -> u64
    ensures { result ≡ 2 ^ p % 2 ^ 64 }
{
    if p < 64 { 1 << p } else { 0 }
}

pub fn union(a: u64, b: u64) -> u64
    ensures { result ≡ bit_or a b }
{
    a | b
}

pub fn intersection(a: u64, b: u64) -> u64
    ensures { result ≡ bit_and a b }
{
    a & b
}

// Whether two sets have a member in common.
pub fn meets(a: u64, b: u64) -> bool
    ensures { result ≡ common 64 a b }
{
    (a & b) != 0
}

// How many members a set has: `count_below`, of which the laws of steps speak.
pub fn size(a: u64) -> u64
    ensures { result ≡ count_below 64 (bit a) }
{
    a.count_ones() as u64
}

// The members of a set below s.
pub fn within(s: u64, a: u64) -> u64
    ensures { result ≡ word s (bit a) }
{
    if s < 64 { a & ((1 << s) - 1) } else { a }
}

// The set if t holds, or else the empty one: `cond`, of which the laws of moves and spans speak.
pub fn chosen(t: bool, a: u64) -> u64
    ensures { result ≡ cond t a 0 }
{
    if t { a } else { 0 }
}

// The union of the rows of the set's members; a member from 32 on has no row and adds nothing. By the bits and no `for`: as many rounds as members.
pub fn image(rows: &[u64; 32], set: u64) -> u64
    ensures { result ≡ image_of rows.now set }
{
    let mut acc = 0;
    let mut y = set & 0xffff_ffff;
    while y != 0 {
        let p = y.trailing_zeros() as usize;
        acc |= rows[p];
        y &= y - 1;
    }
    acc
}
