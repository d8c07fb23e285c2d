// The pack's header: nine words, and the layout that they have to give.
ghost use Rattle.std.specs.Prelude.{◌≡◌, ◌&&◌, ◌+◌, ◌*◌, ◌≤◌, eqb, length};
ghost use Rattle.trie.specs.Sound.{every};
ghost use Rattle.pack.specs.Pack.{word, header_of, laid_out, kind_laid_out, kind_of};
ghost use Rattle.pack.specs.Reading.{row_start};
ghost use Rattle.refusal.specs.Lent.{was};

use rows::Kind;

// The header's length and a row's, in bytes.
pub const HEADER: usize = 36;

pub const ROW: usize = 16;

// The header, word by word.
#[derive(Clone, Copy)]
pub struct Header {
    pub kind: u32,
    pub rows: u32,
    pub rows_off: u32,
    pub strings_off: u32,
    pub strings_len: u32,
    pub unknown: u32,
    pub max_chars: u32,
    pub prefix_off: u32,
    pub prefix_len: u32,
}

// The little-endian word at byte `at`.
pub fn word(bytes: &[u8], at: usize) -> u32
    requires { at + 4 ≤ length bytes.now }
    ensures { result ≡ word (was bytes) at }
{
    let low = bytes[at] as u32 + 256 * (bytes[at + 1] as u32);
    let high = bytes[at + 2] as u32 + 256 * (bytes[at + 3] as u32);
    low + 65_536 * high
}

// The header of a file that is long enough for one.
pub(crate) fn read_header(bytes: &[u8]) -> Header
    requires { 36 ≤ length bytes.now }
    ensures { result ≡ header_of (was bytes) }
{
    Header {
        kind: word(bytes, 0),
        rows: word(bytes, 4),
        rows_off: word(bytes, 8),
        strings_off: word(bytes, 12),
        strings_len: word(bytes, 16),
        unknown: word(bytes, 20),
        max_chars: word(bytes, 24),
        prefix_off: word(bytes, 28),
        prefix_len: word(bytes, 32),
    }
}

// Whether the rows follow the header, the strings follow the rows, and the file ends with the strings. The sums are wider than
// the words.
fn is_laid_out(bytes: &[u8], h: Header) -> bool
    requires { 36 ≤ length bytes.now }
    ensures { result ≡ laid_out (was bytes) (h) }
{
    let strings = HEADER + ROW * (h.rows as usize);
    if h.rows_off != 36 {
        return false;
    }
    if h.strings_off as usize != strings {
        return false;
    }
    strings + h.strings_len as usize == bytes.len()
}

// "For kind 1 the last three are 0."
fn is_bare(h: Header) -> bool
    ensures { result ≡ (eqb h.max_chars 0 && eqb h.prefix_off 0 && eqb h.prefix_len 0) }
{
    h.max_chars == 0 && h.prefix_off == 0 && h.prefix_len == 0
}

// Whether four zero bytes follow the id of each row.
fn is_padded(bytes: &[u8], rows: usize) -> bool
    requires { row_start rows ≤ length bytes.now }
    ensures { result ≡ every rows (λ i. eqb (word (was bytes) (36 + 16 * i + 12)) 0) }
{
    for i in 0..rows {
        if word(bytes, HEADER + ROW * i + 12) != 0 {
            return false;
        }
    }
    true
}

// The kind of a file whose parts stand where they should.
fn kind_laid_out(bytes: &[u8], h: Header) -> Option<Kind>
    requires { row_start h.rows ≤ length bytes.now }
    ensures { result ≡ kind_laid_out (was bytes) (h) }
{
    if h.kind == 1 {
        if is_bare(h) {
            return Some(Kind::Unigram);
        }
        return None;
    }
    if h.kind != 2 {
        return None;
    }
    if is_padded(bytes, h.rows as usize) {
        return Some(Kind::WordPiece);
    }
    None
}

// The kind of a file with this header.
pub(crate) fn layout_of(bytes: &[u8], h: Header) -> Option<Kind>
    requires { (36 ≤ length bytes.now) × (h ≡ header_of bytes.now) }
    ensures { result ≡ kind_of (was bytes) }
{
    if !is_laid_out(bytes, h) {
        return None;
    }
    kind_laid_out(bytes, h)
}
