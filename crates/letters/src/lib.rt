// Letters, and whether their case is ignored (document 02, S-1).
#![tactic(auto)]

ghost use Rattle.std.specs.Prelude.{◌≡◌, false, get_or};
ghost use Rattle.std.specs.Bool.{xor};
ghost use Rattle.letters.specs.Letters.{folded, other_case};

// "asked for with case ignored", or not: one choice for a whole call.
#[derive(Clone, Copy)]
pub enum Case {
    Sensitive,
    Ignored,
}

// The same letter in the other case; a byte that is no letter stays as it is.
#[tactic(auto, unfolding(crate::specs::Letters::other_case))]
pub fn other_case(b: u8) -> u8
    ensures { result ≡ other_case b }
{
    match b {
        b'A'..=b'Z' => b + 32,
        b'a'..=b'z' => b - 32,
        _ => b,
    }
}

// Whether a byte is in a set, or, if the set is negated, not in it. With case ignored a letter and the other one "are then each in a set
// if either is", and "this happens before a leading `^` turns the set round".
#[tactic(auto, using(crate::proofs::Laws::unlike), unfolding(crate::specs::Letters::folded))]
pub fn in_set(set: &[bool; 256], case: Case, negated: bool, b: u8) -> bool
    ensures { result ≡ xor negated (folded case (λ j. get_or set.now j false) b) }
{
    match case {
        Case::Sensitive => set[b as usize] != negated,
        Case::Ignored => (set[b as usize] || set[other_case(b) as usize]) != negated,
    }
}
