// How far a run goes.
ghost use Rattle.std.specs.Prelude.{◌≡◌};
ghost use Rattle.extents.specs.Operations.{joined_extents, key_extent, no_extent, repeated_extent};

// Each number is the smaller of what is said here and 2^64 - 1. A CR counts like any other key.
#[derive(Clone, Copy)]
pub struct Extent {
    // How many line ends there are.
    pub ends: u64,
    // How many keys stand before the first of them, or all keys if there is none.
    pub first: u64,
    // How many keys stand behind the last of them, or all keys if there is none.
    pub last: u64,
    // How many keys there are, line ends included.
    pub keys: u64,
}

// The empty run.
pub fn no_extent() -> Extent
    ensures { result ≡ no_extent }
{
    Extent {
        ends: 0,
        first: 0,
        last: 0,
        keys: 0,
    }
}

// One key.
#[tactic(auto, unfolding(crate::specs::Operations::key_extent))]
pub fn key_extent(key: u8) -> Extent
    ensures { result ≡ key_extent key }
{
    if key == b'\n' {
        return Extent {
            ends: 1,
            first: 0,
            last: 0,
            keys: 1,
        };
    }
    Extent {
        ends: 0,
        first: 1,
        last: 1,
        keys: 1,
    }
}

// One run after the other: without a line end in a run, what stands at one end goes on into the other run.
#[tactic(auto, unfolding(crate::specs::Operations::joined_extents, crate::specs::Capped::capped))]
pub fn joined_extents(a: Extent, b: Extent) -> Extent
    ensures { result ≡ joined_extents a b }
{
    Extent {
        ends: a.ends.saturating_add(b.ends),
        first: if a.ends == 0 {
            a.first.saturating_add(b.first)
        } else {
            a.first
        },
        last: if b.ends == 0 {
            b.last.saturating_add(a.last)
        } else {
            b.last
        },
        keys: a.keys.saturating_add(b.keys),
    }
}

// A run n times: without a line end in it, all passes stand at both ends.
#[tactic(auto, unfolding(crate::specs::Operations::repeated_extent, crate::specs::Capped::capped))]
pub fn repeated_extent(a: Extent, n: u64) -> Extent
    ensures { result ≡ repeated_extent n a }
{
    if n == 0 {
        return no_extent();
    }
    let passes = if a.ends == 0 { n } else { 1 };
    Extent {
        ends: a.ends.saturating_mul(n),
        first: a.first.saturating_mul(passes),
        last: a.last.saturating_mul(passes),
        keys: a.keys.saturating_mul(n),
    }
}
