// What each refusal means to the one who asked, and what to do about it.
use crate::say;
use refusal::Refusal;

// What is refused beside books and patterns: the macro, its count, the two keys, the run's length, the line. The command has space for every
// book, joins nothing, takes input of any length and tells of lines that are too long, so that there are no more (`last-refusals`,
// `named-refusals` of `command`, `survey-refusals`, `reach-last-refusals`, `reach-named-refusals`, `depth-last-refusals`,
// `depth-named-refusals` of `survey`, `line-last-refusals`, `line-named-refusals` of `display`).
fn macro_meaning(r: Refusal) -> &'static str {
    match r {
        Refusal::NoSuchMacro =>
            "The book has no macro of that number. The first is 0, and the last is taken if you name none.\n",
        Refusal::CountOverflow =>
            "The count is over 18,446,744,073,709,551,615, the largest that can be given. Ask for a macro that this one calls.\n",
        Refusal::InvalidDelimiters =>
            "The two keys are equal, or one of them is 0 or 10, the line end. Give the key that opens a block and the one that closes it.\n",
        Refusal::RunTooLong =>
            "The run has over 4,611,686,018,427,387,904 keys, the most whose depth is given. Ask for a macro that this one calls.\n",
        Refusal::NoSuchLine =>
            "Fewer than K lines of the run match, or K is 0: the first one is 1. `./rakvinje count` says how many match.\n",
        Refusal::LineNumberOverflow =>
            "The line's number is over 18,446,744,073,709,551,615, the largest that can be given. Ask for a macro that this one calls.\n",
        _ => "",
    }
}

fn meaning(r: Refusal) -> &'static str {
    match r {
        Refusal::BadMagic =>
            "The file is no macro book: it has under 7 bytes, or it does not begin with MBK. Name the book file.\n",
        Refusal::UnsupportedVersion =>
            "The book's version is neither 1 nor 2. Export the show in one of these.\n",
        Refusal::BadMacroCount =>
            "The book has no macro, or over 1,024. Export the show again, in parts if it has more.\n",
        Refusal::MalformedBody =>
            "A macro has no item or over 64, or the file is cut short or goes on behind its last macro. Export it again.\n",
        Refusal::InvalidKey => "A macro holds the item 0, which is no key. Mend that macro.\n",
        Refusal::ForwardReference =>
            "A macro calls itself, or one that does not stand before it. Mend that call.\n",
        Refusal::ZeroRepeatCount =>
            "A macro holds an item with the repeat count 0. Give it one from 1 to 65,535, or take the item out.\n",
        Refusal::PatternLength =>
            "The pattern is empty, or has over 128 bytes. Give one of 1 to 128.\n",
        Refusal::PatternSyntax =>
            "The pattern is not of the form that is taken: README.md, Patterns, has it. Put \\ before a mark that stands for itself.\n",
        Refusal::TooManyAtoms =>
            "The pattern has over 29 atoms (bytes, dots, brackets). Give a shorter one.\n",
        _ => macro_meaning(r),
    }
}

// What a refusal means, where there is one.
pub(crate) fn explain(rt: &HostRuntime, refused: Option<Refusal>) {
    if let Some(r) = refused {
        say::text(rt, meaning(r));
    }
}
