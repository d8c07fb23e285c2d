// For callers that have tested their text, or a span's end.
ghost use Rattle.std.specs.Prelude.{◌≡◌, true, ◌+◌, ◌≤◌, length, None};
ghost use Rattle.text.specs.Text.{well_formed, characters};
ghost use Rattle.text.specs.Span.{PartGiven};
ghost use Rattle.refusal.specs.Lent.{was};

use crate::strides::is_tail;

// How many characters the text has: the bytes that begin one. Added up as numbers, in vector code: as `filter` and `count` it
// took twice as long on ASCII.
pub fn characters(s: &[u8]) -> usize
    requires { well_formed s.now ≡ true }
    ensures { result ≡ characters (was s) }
{
    let mut n: usize = 0;
    for b in s {
        n += !is_tail(*b) as usize;
    }
    n
}

// The part of the table that a span is, text or not: a token, from the moment its row is judged.
pub fn span<'a>(tab: &'a [u8], off: u32, len: u32) -> &'a [u8]
    requires { off + len ≤ length tab.now }
    ensures { PartGiven None tab.entry off len result }
{
    let start = off as usize;
    let end = start + len as usize;
    &tab[start..end]
}
