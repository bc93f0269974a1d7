// What the program `cuecount` does with its input (document 01, "The program `cuecount`").
ghost use Rattle.std.specs.Prelude.{◌≡◌, ◌==◌, ◌<◌, IfSome, length, position};
ghost use Rattle.runs.specs.Keys.{line_end};
ghost use Rattle.counter.specs.Answers.{outcome};
ghost use Rattle.command.specs.Reads.{ProgramAnswers};
ghost use Rattle.command.specs.Input.{book_in, pattern_in, program_result};

use crate::last::last_in;
use counter::Count;
use letters::Case;
use refusal::Refusal;

// The most bytes that the program takes.
const LONGEST: usize = 8192;

// The bytes that the program reads: one more, so that longer input is seen to be longer.
pub const READ: usize = LONGEST + 1;

// Where the first LF stands, if there is one.
fn first_end(input: &[u8]) -> Option<usize>
    ensures place { result ≡ position (λ c. c == line_end) input.now }
    ensures inside { IfSome result (λ i. i < length input.now) }
{
    input.iter().position(|&c| c == b'\n')
}

// What stands before the first LF, which is the pattern, and what stands behind it, the book.
fn parts(input: &[u8]) -> (&[u8], &[u8])
    ensures pattern { result.0.now ≡ pattern_in input.now }
    ensures book { result.1.now ≡ book_in input.now }
{
    match first_end(input) {
        Some(end) => (&input[..end], &input[end + 1..]),
        None => (input, &[]),
    }
}

// The count of the last macro of the book behind the pattern, or a refusal: 14 before all else. The program has no choice of case.
fn answer_in(input: &[u8], work: &mut [u64]) -> Result<Count, Refusal>
    ensures { outcome result work.new ≡ program_result input.now work.old }
{
    if input.len() > LONGEST {
        return Err(Refusal::InputTooLong);
    }
    let (pattern, book) = parts(input);
    last_in(book, pattern, Case::Sensitive, work)
}

// What the program answers, with its 4,096 work words, to every input of which this was read.
pub fn answer(input: &[u8]) -> Result<Count, Refusal>
    ensures { ProgramAnswers READ input.now result }
{
    let mut work = [0; 4096];
    answer_in(input, &mut work)
}
