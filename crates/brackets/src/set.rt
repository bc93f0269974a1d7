// The set of an atom's keys: it "says yes or no for every byte value from 0 to 255" (document 01, "Patterns").
// A table has an entry for each byte, which is its index.
ghost use Rattle.std.specs.Prelude.{◌≡◌, ◌<◌};
ghost use Rattle.brackets.specs.Form.{byte, class, dot, plain, range};
ghost use Rattle.brackets.specs.Promises.{Known, element_of, has_key, with_element, with_key};
ghost use Rattle.brackets.specs.Answers.{keys_with, map_with};

use crate::class::classes;
use crate::element::Element;
use letters::{Case, in_set};

// Adds one byte.
fn add_byte(set: &mut [bool; 256], b: u8)
    ensures { set.new ≡ map_with (with_element (byte b)) 0 set.old }
{
    set[b as usize] = true;
}

// Adds the bytes from `first` to `last`, both included.
fn add_range(set: &mut [bool; 256], first: u8, last: u8)
    ensures { set.new ≡ map_with (with_element (range first last)) 0 set.old }
{
    for b in first..=last {
        set[b as usize] = true;
    }
}

// Adds the bytes of a class.
fn add_class(set: &mut [bool; 256], c: usize)
    requires { c < 12 }
    ensures { set.new ≡ map_with (with_element (class c)) 0 set.old }
{
    for &(first, last) in classes()[c].ranges {
        add_range(set, first, last);
    }
}

// Adds the bytes of an element.
pub(crate) fn add_element(set: &mut [bool; 256], e: Element)
    requires { Known (element_of e) }
    ensures { set.new ≡ map_with (with_element (element_of e)) 0 set.old }
{
    match e {
        Element::Byte(b) => add_byte(set, b),
        Element::Range(first, last) => add_range(set, first, last),
        Element::Class(c) => add_class(set, c),
    }
}

// Whether a key is in the set, whose letters are folded before a `^` turns it round. "Every set says no for 0 and for LF", also a
// negated one.
fn has_key(set: &[bool; 256], case: Case, negated: bool, k: usize) -> bool
    requires { k < 256 }
    ensures { result ≡ has_key case set.now negated k }
{
    (k != 0) & ((k != 10) & in_set(set, case, negated, k as u8))
}

// Puts these states into the words of the set's keys. Every atom's set goes through here.
pub(crate) fn store(
    set: &[bool; 256],
    case: Case,
    negated: bool,
    states: u64,
    keys: &mut [u64; 256],
)
    ensures { keys.new ≡ map_with (with_key case set.now negated states) 0 keys.old }
{
    for (k, word) in keys.iter_mut().enumerate() {
        if has_key(set, case, negated, k) {
            *word |= states;
        }
    }
}

// The same for the set of one byte.
pub(crate) fn store_key(b: u8, case: Case, states: u64, keys: &mut [u64; 256])
    ensures { keys.new ≡ keys_with case (plain b) states keys.old }
{
    let mut set = [false; 256];
    add_byte(&mut set, b);
    store(&set, case, false, states, keys);
}

// The same for `.`, "every key but LF": all bytes but those of an empty set.
pub(crate) fn store_dot(case: Case, states: u64, keys: &mut [u64; 256])
    ensures { keys.new ≡ keys_with case dot states keys.old }
{
    let set = [false; 256];
    store(&set, case, true, states, keys);
}
