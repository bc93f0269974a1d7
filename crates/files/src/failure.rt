// What is said of a call on a file or a stream that failed.
use std::fmt::InlineText;
use std::io::Error;

// Room for the system's words for every error, and for its number.
const WORDS: usize = 256;

// A line on standard error: what failed, a colon and the system's words. The number that std puts behind them is left out.
pub fn say_failure(rt: &HostRuntime, name: &[u8], error: Error) {
    let text: InlineText<WORDS> = InlineText::of(error);
    let words = text.as_str();
    let end = words.find(" (os error ").unwrap_or(words.len());
    let err = rt.stderr();
    // Where standard error cannot be written either, there is nobody to tell.
    let _ = err.write_all(name);
    let _ = err.print(": ");
    let _ = err.write_all(&words.as_bytes()[..end]);
    let _ = err.print("\n");
}
