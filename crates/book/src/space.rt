// What is refused of a sound book before any work: the macro's number and the work words.
ghost use Rattle.std.specs.Prelude.{◌≡◌, suc, ◌*◌};
ghost use Rattle.book.specs.Steps.{settled_by, space_step};

use refusal::Refusal;

// 10 and 11 of the table, for macro m of so many, where each of macros 0 to m needs `width` of the work words. No product
// is made, so none is too large.
pub fn space_for(macros: usize, m: usize, width: usize, words: usize) -> Result<(), Refusal>
    ensures { settled_by result ≡ space_step macros m (suc m * width) words }
{
    if macros <= m {
        return Err(Refusal::NoSuchMacro);
    }
    if width == 0 {
        return Ok(());
    }
    if words / width <= m {
        return Err(Refusal::InsufficientSpace);
    }
    Ok(())
}
