// Why an operation refuses its input: one enum for the whole project.
#![tactic(auto)]

ghost use Rattle.std.specs.Prelude.{◌≡◌};
ghost use Rattle.refusal.specs.Number.{number};

// Document 01, "Refused": a case for each row of the table, with its number; behind them document 02's.
#[derive(Clone, Copy, PartialEq, Eq)]
pub enum Refusal {
    // "no book": under 7 bytes, or another mark.
    BadMagic = 1,
    // "strange version": neither 1 nor 2 (document 02, S-8).
    UnsupportedVersion = 2,
    // "macro count": 0 or over 1,024.
    BadMacroCount = 3,
    // "broken body": an item count of 0 or over 64, bytes run out, or bytes left over.
    MalformedBody = 4,
    // "dead key": item 0; byte 0 in a plain run; byte 0 or 10 in the one-line test.
    InvalidKey = 5,
    // "forward call": a call that is not to a lower macro.
    ForwardReference = 6,
    // "pattern length": 0 or over 128.
    PatternLength = 7,
    // "bad pattern": not of the form.
    PatternSyntax = 8,
    // "too many atoms": over 29.
    TooManyAtoms = 9,
    // "no such macro".
    NoSuchMacro = 10,
    // "short work": fewer words or entries than stated.
    InsufficientSpace = 11,
    // "count too high": over 2^64 - 1.
    CountOverflow = 12,
    // "unlike reports".
    ReportMismatch = 13,
    // "long input": program only.
    InputTooLong = 14,
    // Document 02, S-3: fewer than k matching lines, or k is 0.
    NoSuchLine = 15,
    // The line number passes 2^64 - 1.
    LineNumberOverflow = 16,
    // The buffer is shorter than the line.
    BufferTooShort = 17,
    // S-6: the two keys are equal, or one is 0 or 10.
    InvalidDelimiters = 18,
    // The macro's run is longer than 2^62 keys.
    RunTooLong = 19,
    // S-8: a repeat count of 0.
    ZeroRepeatCount = 20,
}

// The number that the table gives a refusal.
pub fn code(r: Refusal) -> u8
    ensures { result ≡ number r }
{
    r as u8
}
