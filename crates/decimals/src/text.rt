// Texts put into a buffer, one behind the other.
ghost use Rattle.std.specs.Prelude.{◌≡◌, ◌≤◌, length};
ghost use Rattle.decimals.specs.Decimals.{numeral};
ghost use Rattle.decimals.specs.Drafts.{Puts};
ghost use Rattle.decimals.specs.Texts.{place_after, put_at};

// A text that grows from the front of a buffer. Contracts read its fields: by the name of the reference a caller knows that what the draft
// holds in the end is what the lent buffer holds.
#[derive(Drop)]
pub struct Draft<'a> {
    bytes: &'a mut [u8],
    length: usize,
}

impl Draft<'_> {
    // The empty text.
    pub fn new(bytes: &mut [u8]) -> Draft<'_>
        ensures same_buffer { result.bytes.ghost_name ≡ bytes.entry.ghost_name }
        ensures buffer { result.bytes.now ≡ bytes.old }
        ensures empty { result.length ≡ 0 }
    {
        Draft { bytes, length: 0 }
    }

    // Puts a text behind what there is; without room for all of it, nothing is put.
    #[tactic(auto, unfolding(crate::specs::Texts::put_at, crate::specs::Texts::place_after))]
    pub fn put(&mut self, text: &[u8])
        ensures { Puts text.now self.old self.new }
    {
        if self.bytes.len() < self.length {
            return;
        }
        if self.bytes.len() - self.length < text.len() {
            return;
        }
        let end = self.length + text.len();
        self.bytes[self.length..end].copy_from_slice(text);
        self.length = end;
    }

    // The same with a number's digits, of which there are 20 at the most.
    pub fn put_number(&mut self, n: u64)
        ensures text { Puts (numeral n) self.old self.new }
        ensures short { length (numeral n) ≤ 20 }
    {
        let mut digits = [0; 20];
        let k = io::decimal(n, &mut digits);
        self.put(&digits[..k]);
    }

    // How long the text is.
    pub fn length(&self) -> usize
        ensures { result ≡ self.now.length }
    {
        self.length
    }
}

// Puts a text from a place on, and answers the place behind it; without room for all of it, nothing is put.
pub fn put_text(out: &mut [u8], at: usize, text: &[u8]) -> usize
    ensures buffer { out.new ≡ put_at out.old at text.now }
    ensures place { result ≡ place_after out.old at text.now }
{
    let mut draft = Draft {
        bytes: out,
        length: at,
    };
    draft.put(text);
    draft.length
}

// The same with a number's digits, of which there are 20 at the most.
pub fn put_number(out: &mut [u8], at: usize, n: u64) -> usize
    ensures buffer { out.new ≡ put_at out.old at (numeral n) }
    ensures place { result ≡ place_after out.old at (numeral n) }
    ensures short { length (numeral n) ≤ 20 }
{
    let mut digits = Draft {
        bytes: out,
        length: at,
    };
    digits.put_number(n);
    digits.length
}
