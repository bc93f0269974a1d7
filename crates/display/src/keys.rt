// Keys shown so that a terminal is safe.
ghost use Rattle.std.specs.Prelude.{◌≡◌, ◌+◌, ◌*◌, ◌<◌, ◌≤◌, length};
ghost use Rattle.decimals.specs.Drafts.{Puts};
ghost use Rattle.display.specs.Shown.{code_text, hex_digit, shown_key, shown_keys};

use decimals::Draft;

// A hexadecimal digit.
fn hex_digit(d: u8) -> u8
    requires { d < 16 }
    ensures { result ≡ hex_digit d }
{
    if d < 10 { b'0' + d } else { b'W' + d }
}

// A backslash, `x` and two hexadecimal digits.
fn put_code(line: &mut Draft, key: u8)
    ensures { Puts (code_text key) line.old line.new }
{
    let text = [b'\\', b'x', hex_digit(key / 16), hex_digit(key % 16)];
    line.put(&text);
}

// One key.
fn put_key(line: &mut Draft, key: u8)
    ensures { Puts (shown_key key) line.old line.new }
{
    if key == b'\\' {
        return line.put(b"\\\\");
    }
    if (key < 32) | (126 < key) {
        return put_code(line, key);
    }
    let text = [key];
    line.put(&text);
}

// Keys, one behind the other.
pub(crate) fn put_keys(line: &mut Draft, keys: &[u8])
    requires { line.old.length + 4 * length keys.now ≤ length line.old.bytes.now }
    ensures { Puts (shown_keys keys.now) line.old line.new }
{
    for &key in keys {
        put_key(line, key);
    }
}
