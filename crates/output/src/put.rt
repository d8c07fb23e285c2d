// Text put into a lent buffer at `at`; each function answers where the text ends. For callers that know that there is room.
ghost use Rattle.std.specs.Prelude.{[], ◌∷◌, ◌+◌, ◌*◌, ◌^◌, ◌≤◌, ◌<◌, length, take};
ghost use Rattle.output.specs.Lines.{decimal, spaced, printed_ids, printed_refusal};
ghost use Rattle.output.specs.Put.{Put};
ghost use Rattle.refusal.specs.Lent.{was};

use refusal::Fault;

// A number in decimal.
pub(crate) fn put_number(out: &mut [u8], at: usize, n: u32) -> usize
    requires { at + length (decimal n) ≤ length out.old }
    ensures { Put out.old at (decimal n) result out.new }
{
    if n < 10 {
        out[at] = 48 + n as u8;
        return at + 1;
    }
    let next = put_number(out, at, n / 10);
    out[next] = 48 + (n % 10) as u8;
    next + 1
}

// One byte.
pub(crate) fn put_byte(out: &mut [u8], at: usize, b: u8) -> usize
    requires { at < length out.old }
    ensures { Put out.old at (b ∷ []) result out.new }
{
    out[at] = b;
    at + 1
}

// The bytes of a text.
pub(crate) fn put_text(out: &mut [u8], at: usize, text: &[u8]) -> usize
    requires { at + length text.now ≤ length out.old }
    ensures { Put out.old at (was text) result out.new }
{
    let mut end = at;
    for b in text {
        end = put_byte(out, end, *b);
    }
    end
}

// A number after one space.
pub(crate) fn put_spaced(out: &mut [u8], at: usize, n: u32) -> usize
    requires { at + 11 ≤ length out.old }
    ensures { Put out.old at (0x20 ∷ decimal n) result out.new × (result ≤ at + 11) }
{
    out[at] = 0x20;
    put_number(out, at + 1, n)
}

// The numbers, each after one space. A u32 has at most ten digits.
pub(crate) fn put_numbers(out: &mut [u8], at: usize, numbers: &[u32]) -> usize
    requires { at + 11 * length numbers.now ≤ length out.old }
    ensures { Put out.old at (spaced (was numbers)) result out.new × (result ≤ at + 11 * length (was numbers)) }
{
    let mut end = at;
    for n in numbers {
        end = put_spaced(out, end, *n);
    }
    end
}

// The line of a comment's ids: how many there are, and each.
pub(crate) fn put_ids(out: &mut [u8], at: usize, ids: &[u32]) -> usize
    requires ids_in_bounds { at + 11 * length ids.now + 11 ≤ length out.old }
    requires ids_len_bound { length ids.now < 2 ^ 32 }
    ensures { Put out.old at (printed_ids (was ids)) result out.new × (result ≤ at + 11 * length (was ids) + 11) }
{
    let counted = put_number(out, at, ids.len() as u32);
    let end = put_numbers(out, counted, ids);
    put_byte(out, end, 0x0A)
}

// The line of a refusal, after what was refused. A refusal's number has at most two digits.
pub(crate) fn put_refusal(out: &mut [u8], at: usize, what: &[u8], f: Fault) -> usize
    requires { at + length what.now + 11 ≤ length out.old }
    ensures { Put out.old at (printed_refusal (was what) f) result out.new × (result ≤ at + length (was what) + 11) }
{
    let named = put_text(out, at, what);
    let told = put_text(out, named, b"refused");
    let apart = put_byte(out, told, 0x20);
    let end = put_number(out, apart, f.number());
    put_byte(out, end, 0x0A)
}
