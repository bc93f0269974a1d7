// The twelve classes of a bracket, and the search for one (document 01, "Patterns").
ghost use Rattle.std.specs.Prelude.{◌≡◌, ◌+◌, ◌<◌, ◌≤◌, drop, length};
ghost use Rattle.brackets.specs.Brackets.{find_class};
ghost use Rattle.brackets.specs.Promises.{ClassTable, class_shown};

use crate::cursor::AtomCursor;

// A class: its name with the `:]` behind it, and the first and the last byte of each of its ranges.
#[derive(Clone, Copy)]
pub(crate) struct Class {
    text: &'static [u8],
    pub(crate) ranges: &'static [(u8, u8)],
}

// "The twelve class names stand for these ranges."
const CLASSES: &[Class] = &[
    Class {
        text: b"upper:]",
        ranges: &[(b'A', b'Z')],
    },
    Class {
        text: b"lower:]",
        ranges: &[(b'a', b'z')],
    },
    Class {
        text: b"alpha:]",
        ranges: &[(b'A', b'Z'), (b'a', b'z')],
    },
    Class {
        text: b"digit:]",
        ranges: &[(b'0', b'9')],
    },
    Class {
        text: b"alnum:]",
        ranges: &[(b'A', b'Z'), (b'a', b'z'), (b'0', b'9')],
    },
    Class {
        text: b"xdigit:]",
        ranges: &[(b'0', b'9'), (b'A', b'F'), (b'a', b'f')],
    },
    Class {
        text: b"punct:]",
        ranges: &[(b'!', b'/'), (b':', b'@'), (b'[', b'`'), (b'{', b'~')],
    },
    Class {
        text: b"graph:]",
        ranges: &[(b'!', b'~')],
    },
    Class {
        text: b"print:]",
        ranges: &[(b' ', b'~')],
    },
    Class {
        text: b"cntrl:]",
        ranges: &[(b'\0', b'\x1f'), (b'\x7f', b'\x7f')],
    },
    Class {
        text: b"space:]",
        ranges: &[(b'\t', b'\r'), (b' ', b' ')],
    },
    Class {
        text: b"blank:]",
        ranges: &[(b'\t', b'\t'), (b' ', b' ')],
    },
];

// The table.
pub(crate) fn classes() -> &'static [Class]
    ensures { ClassTable result.now }
{
    CLASSES
}

impl AtomCursor {
    // The class whose name and `:]` stand at the cursor, as its place in the table, and the cursor behind these.
    pub(crate) fn find_class(self, s: &[u8]) -> Option<(usize, AtomCursor)>
        requires { self.at ≤ length s.now + 2 }
        ensures { result ≡ class_shown self.at (find_class 12 0 (drop self.at s.now)) }
    {
        let rest = s.get(self.at..)?;
        for (c, class) in classes().iter().enumerate() {
            if rest.starts_with(class.text) {
                return Some((c, self.past(class.text.len())));
            }
        }
        None
    }
}
