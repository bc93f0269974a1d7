// What is said on standard error.

// Where standard error cannot be written, there is nobody to tell.
pub(crate) fn text(rt: &HostRuntime, s: &str) {
    let _ = rt.eprint(s);
}

pub(crate) fn no_number(rt: &HostRuntime) {
    text(rt, "the macro number must be decimal digits, as 0 or 17\n");
}

pub(crate) fn no_key(rt: &HostRuntime) {
    text(
        rt,
        "a key must be one byte, as (, or its number up to 255 in two or three decimal digits, as 040\n",
    );
}

pub(crate) fn no_place(rt: &HostRuntime) {
    text(
        rt,
        "K, which says which of the matching lines is meant, must be decimal digits, up to 18446744073709551615\n",
    );
}

pub(crate) fn long_line(rt: &HostRuntime) {
    text(
        rt,
        "A line is not shown: it has over 65,536 keys. Its length is told up to 18446744073709551614, which stands for that and more.\n",
    );
}

pub(crate) fn usage(rt: &HostRuntime) {
    text(
        rt,
        "usage: rakvinje count sensitive|ignored PATTERN BOOK [MACRO] | rakvinje check BOOK | rakvinje reach BOOK [MACRO] | rakvinje depth OPEN CLOSE BOOK [MACRO] | rakvinje lines sensitive|ignored FIRST COUNT PATTERN BOOK [MACRO]\n",
    );
}
