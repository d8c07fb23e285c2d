// A pack judged: everything but the room in the lent columns. Nothing is written.
ghost use Rattle.std.specs.Result.{result_err};
ghost use Rattle.std.specs.Prelude.{◌≡◌, Some};
ghost use Rattle.pack.specs.Pack.{header_of, kind_of};
ghost use Rattle.pack.specs.Build.{large_header, content_fault};
ghost use Rattle.pack.specs.Reading.{FoundIs};
ghost use Rattle.refusal.specs.Lent.{was};

use crate::header::Header;
use refusal::{Fault, MAX_PREFIX, Reason};
use rows::Kind;

// Whether a number of the header is above its limit.
fn is_large(h: Header) -> bool
    ensures { result ≡ large_header (h) }
{
    rows::columns::is_large(h.rows as usize, h.strings_len as usize)
        || MAX_PREFIX < h.prefix_len as usize
}

// The sizes, the rows, and then the prefix's span and text.
fn judge_rows(kind: Kind, bytes: &[u8], h: Header) -> Result<(), Reason>
    requires { (h ≡ header_of bytes.now) × (kind_of bytes.now ≡ Some kind) }
    ensures { result_err result ≡ content_fault kind (was bytes) }
{
    if is_large(h) {
        return Err(Reason::Call(Fault::Size));
    }
    let start = h.strings_off as usize;
    crate::row::first_bad(kind, bytes, &bytes[start..], h.rows as usize)?;
    text::text_answer(&bytes[start..], h.prefix_off, h.prefix_len)?;
    Ok(())
}

// The layout, and then the rest.
pub fn judge(bytes: &[u8]) -> Result<(Kind, Header), Reason>
    ensures { FoundIs (was bytes) result }
{
    if bytes.len() < crate::header::HEADER {
        return Err(Reason::Call(Fault::Pack));
    }
    let h = crate::header::read_header(bytes);
    let Some(kind) = crate::header::layout_of(bytes, h) else {
        return Err(Reason::Call(Fault::Pack));
    };
    judge_rows(kind, bytes, h)?;
    Ok((kind, h))
}
