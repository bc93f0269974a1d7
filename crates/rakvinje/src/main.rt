// The command for people: `rakvinje count CASE PATTERN BOOK [MACRO]`, `rakvinje check BOOK`, `rakvinje reach BOOK [MACRO]`,
// `rakvinje depth OPEN CLOSE BOOK [MACRO]`, `rakvinje lines CASE FIRST COUNT PATTERN BOOK [MACRO]`, where CASE is `sensitive` or `ignored`.
// Standard output has the answer; standard error says what depths, long lines and refusals mean, or why there is no answer.
#![tactic(auto)]

mod arguments;
mod check;
mod count;
mod depths;
mod meaning;
mod reaching;
mod say;
mod showing;

use arguments::{Verb, asked_verb};

fn main(rt: HostRuntime) {
    match asked_verb(&rt) {
        Some(Verb::Count) => count::count(&rt),
        Some(Verb::Check) => check::check_book(&rt),
        Some(Verb::Depth) => depths::depth(&rt),
        Some(Verb::Lines) => showing::lines(&rt),
        Some(Verb::Reach) => reaching::reach(&rt),
        None => say::usage(&rt),
    }
}
