// RFC 3629 text: where it is well-formed, where its characters begin, and the span check over a lent string table.
#![tactic(auto)]

use refusal::{Fault, MAX_TABLE};

pub mod checked;
pub mod lead;
mod strides;
pub mod utf8;

ghost use Rattle.std.specs.Prelude.{◌≡◌, None};
ghost use Rattle.text.specs.Span.{outside, span_fault, TextAnswered, PartGiven};
ghost use Rattle.refusal.specs.Lent.{was};

// Whether the span of len bytes at off passes the table's end.
pub fn is_outside(tab: &[u8], off: u32, len: u32) -> bool
    ensures { result ≡ outside (was tab) off len }
{
    tab.len() < off as usize + len as usize
}

// The empty part at the table's start.
fn nothing<'a>(tab: &'a [u8]) -> &'a [u8]
    ensures { PartGiven None tab.entry 0 0 result }
{
    &tab[..0]
}

// Whether a span is text: the size of the table is tested, then the span's end, then its bytes. An empty part may be an
// accepted span, so this stands beside `text`.
pub fn text_answer(tab: &[u8], off: u32, len: u32) -> Result<(), Fault>
    ensures { TextAnswered (was tab) off len result }
{
    if MAX_TABLE < tab.len() {
        return Err(Fault::Size);
    }
    if is_outside(tab, off, len) {
        return Err(Fault::Span);
    }
    utf8::judge(checked::span(tab, off, len))
}

// An accepted span's own part of the table; the empty part at its start for a refused one.
pub fn text<'a>(tab: &'a [u8], off: u32, len: u32) -> &'a [u8]
    ensures { PartGiven (span_fault (was tab) off len) tab.entry off len result }
{
    match text_answer(tab, off, len) {
        Ok(()) => checked::span(tab, off, len),
        Err(_) => nothing(tab),
    }
}
