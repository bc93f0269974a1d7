// The check of a whole book, in reading order (document 01, "Refused", 1 to 6, and document 02's 20), and the places of its macros.
ghost use Rattle.std.specs.Prelude.{◌≡◌, ◌≤◌, ◌&&◌, IfOk, leb, length, drop, replicate};
ghost use Rattle.book.specs.Format.{versions};
ghost use Rattle.book.specs.Reading.{has_magic, read_all, read_book, read_header, read_item, read_items, read_macro, version_in};
ghost use Rattle.book.specs.Answer.{check_result, checked_figures, offsets_in, opened_figures};
ghost use Rattle.book.specs.Promises.{header_of, table_of, table_told, walk_of};

use crate::item::{Item, read_item};
use crate::number::le16_at;
use crate::version::{is_taken, version_of, width_of};
use refusal::Refusal;

// Document 01's mark, which a book begins with.
const MAGIC: [u8; 3] = *b"MBK";

// A sound book: its bytes, how many macros it has, and where they stand. `open` says so; no ghost field does, since `items` and `item` answer for
// any places.
#[derive(Clone, Copy)]
pub struct Book<'a> {
    pub bytes: &'a [u8],
    pub macros: u16,
    // Macro i starts at offsets[i] and ends at offsets[i + 1].
    pub offsets: [usize; 1025],
}

// Whether there are bytes enough for a header, and the mark is in front.
fn has_magic(s: &[u8]) -> bool
    ensures { result ≡ leb 7 (length s.now) && has_magic s.now }
{
    7 <= s.len() && s.starts_with(&MAGIC)
}

// The macro count that a header gives.
fn read_header(s: &[u8]) -> Result<u16, Refusal>
    ensures { result ≡ header_of (read_header versions s.now) }
{
    if !has_magic(s) {
        return Err(Refusal::BadMagic);
    }
    if !is_taken(le16_at(s, 3)) {
        return Err(Refusal::UnsupportedVersion);
    }
    let count = le16_at(s, 5);
    if !((1 <= count) & (count <= 1024)) {
        return Err(Refusal::BadMacroCount);
    }
    Ok(count)
}

// A macro under check: the book's bytes and version, and the macro's number.
#[derive(Clone, Copy)]
struct MacroCheck<'a> {
    bytes: &'a [u8],
    version: u16,
    n: u16,
}

impl<'a> MacroCheck<'a> {
    // One item of it: where the next one stands.
    fn item(&self, at: usize) -> Result<usize, Refusal>
        ensures { result ≡ walk_of (length self.now.bytes.now) (read_item self.now.version self.now.n (drop at self.now.bytes.now)) }
    {
        let next = read_item(self.bytes, at, self.version).ok_or(Refusal::MalformedBody)?;
        match next.item {
            Item::Key(k) if k == 0 => Err(Refusal::InvalidKey),
            Item::Call(j) if self.n <= j => Err(Refusal::ForwardReference),
            _ if next.times == 0 => Err(Refusal::ZeroRepeatCount),
            _ => Ok(at + width_of(self.version)),
        }
    }

    // Its items: `count` of them.
    fn items(&self, start: usize, count: u16) -> Result<usize, Refusal>
        requires { start ≤ length self.now.bytes.now }
        ensures { result ≡ walk_of (length self.now.bytes.now) (read_items self.now.version self.now.n count (drop start self.now.bytes.now)) }
    {
        let mut at = start;
        for _ in 0..count {
            at = self.item(at)?;
        }
        Ok(at)
    }

    // Its item count and its items.
    fn whole(&self, at: usize) -> Result<usize, Refusal>
        requires { at ≤ length self.now.bytes.now }
        ensures { result ≡ walk_of (length self.now.bytes.now) (read_macro self.now.version self.now.n (drop at self.now.bytes.now)) }
    {
        if self.bytes.len() - at < 2 {
            return Err(Refusal::MalformedBody);
        }
        let count = le16_at(self.bytes, at);
        if !((1 <= count) & (count <= 64)) {
            return Err(Refusal::MalformedBody);
        }
        self.items(at + 2, count)
    }
}

// The macros of a book whose header gives `count`: where they stand, in a table of zeros.
fn layout_macros(s: &[u8], count: u16, offsets: &mut [usize; 1025]) -> Result<(), Refusal>
    requires { ((7 ≤ length s.now) × (count ≤ 1024)) × (offsets.old ≡ replicate 1025 0) }
    ensures { table_told result offsets.new ≡ table_of (version_in s.now) (read_all (version_in s.now) count (drop 7 s.now)) }
{
    let version = version_of(s);
    let mut at = 7;
    offsets[0] = at;
    for n in 0..count {
        at = MacroCheck {
            bytes: s,
            version,
            n,
        }
        .whole(at)?;
        offsets[n as usize + 1] = at;
    }
    if at < s.len() {
        return Err(Refusal::MalformedBody);
    }
    Ok(())
}

// One walk over a book: the check of each byte, and in a table of zeros the places. The table is lent, so that it is not copied.
pub(crate) fn lay_out(s: &[u8], offsets: &mut [usize; 1025]) -> Result<u16, Refusal>
    requires { offsets.old ≡ replicate 1025 0 }
    ensures figures { checked_figures result ≡ check_result (read_book s.now) }
    ensures table { IfOk result (λ _. offsets.new ≡ offsets_in s.now) }
{
    let macros = read_header(s)?;
    layout_macros(s, macros, offsets)?;
    Ok(macros)
}

impl<'a> Book<'a> {
    // A book that is sound, with the places of its macros.
    pub fn open(bytes: &'a [u8]) -> Result<Book<'a>, Refusal>
        ensures figures { opened_figures result ≡ check_result (read_book bytes.now) }
        ensures table { IfOk result (λ b. b.offsets ≡ offsets_in bytes.now) }
        ensures same { IfOk result (λ b. b.bytes ≡ bytes.entry) }
    {
        let mut book = Book {
            bytes,
            macros: 0,
            offsets: [0; 1025],
        };
        book.macros = lay_out(bytes, &mut book.offsets)?;
        Ok(book)
    }

    // The version that its bytes give.
    pub fn version(&self) -> u16
        ensures { result ≡ version_in self.now.bytes.now }
    {
        version_of(self.bytes)
    }
}
