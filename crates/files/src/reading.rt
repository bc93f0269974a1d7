// Reading until a buffer is full or the input ends.
ghost use Rattle.std.specs.Prelude.{IfSome};
ghost use Rattle.io.specs.Counts.{IsPrefixLen};

use crate::failure::say_failure;
use std::io::{Error, Read};
use std::{fs, str};

// EILSEQ, the system's error for bytes that are no text.
const NOT_TEXT: i32 = 84;

// How many bytes were read, and what ended it before the input's end or the buffer's.
#[derive(Clone, Copy)]
pub struct Filled {
    pub bytes: usize,
    pub error: Option<Error>,
}

// Reads until the buffer is full, the input ends or a read fails. By a count of its own: what std has for it reads into a `Vec`, or fails where
// the input ends first.
pub fn fill<R: Read>(input: &mut R, buf: &mut [u8]) -> Filled
    ensures { IsPrefixLen result.bytes buf.new }
{
    let mut bytes = 0;
    while bytes < buf.len() {
        match input.read(&mut buf[bytes..]) {
            Ok(0) => break,
            Ok(n) => bytes += n,
            Err(error) => {
                return Filled {
                    bytes,
                    error: Some(error),
                };
            }
        }
    }
    Filled { bytes, error: None }
}

// Reads until the buffer is full or the input ends. None if a read fails, which is said under the input's name.
fn read_all<R: Read>(rt: &HostRuntime, input: &mut R, name: &[u8], buf: &mut [u8]) -> Option<usize>
    ensures { IfSome result (λ n. IsPrefixLen n buf.new) }
{
    let filled = fill(input, buf);
    match filled.error {
        Some(error) => {
            say_failure(rt, name, error);
            None
        }
        None => Some(filled.bytes),
    }
}

// How many bytes of standard input were read, to the start of the buffer; none if a read failed, which has been said on standard error.
pub fn read_standard(rt: &HostRuntime, buf: &mut [u8]) -> Option<usize>
    ensures { IfSome result (λ n. IsPrefixLen n buf.new) }
{
    read_all(rt, &mut rt.stdin(), b"standard input", buf)
}

// The same of the file of this path, which is text, as std's paths are.
fn read_file(rt: &HostRuntime, path: &str, buf: &mut [u8]) -> Option<usize>
    ensures { IfSome result (λ n. IsPrefixLen n buf.new) }
{
    match fs::open(rt, path) {
        Ok(mut file) => read_all(rt, &mut file, path.as_bytes(), buf),
        Err(error) => {
            say_failure(rt, path.as_bytes(), error);
            None
        }
    }
}

// The same of the file of this path, or of standard input for `-`. std opens no path that is not UTF-8.
pub fn read_path(rt: &HostRuntime, path: &[u8], buf: &mut [u8]) -> Option<usize>
    ensures { IfSome result (λ n. IsPrefixLen n buf.new) }
{
    if path == b"-".as_slice() {
        return read_standard(rt, buf);
    }
    match str::from_utf8(path) {
        Ok(text) => read_file(rt, text, buf),
        Err(_) => {
            say_failure(rt, path, Error::from_raw_os_error(NOT_TEXT));
            None
        }
    }
}
