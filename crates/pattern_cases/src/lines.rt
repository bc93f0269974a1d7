// The lines of a text.
use crate::show::case;

// A case for each line, by its number from 1 on.
pub(crate) fn cases(rt: &HostRuntime, text: &[u8]) {
    for (i, line) in text.split_inclusive(|b| *b == b'\n').enumerate() {
        case(rt, i + 1, line.strip_suffix(b"\n").unwrap_or(line));
    }
}
