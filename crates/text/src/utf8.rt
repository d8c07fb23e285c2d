// Which bytes are text by RFC 3629, and where its characters begin.
ghost use Rattle.std.specs.Result.{result_err};
ghost use Rattle.std.specs.Prelude.{◌≡◌, true, ◌+◌, ◌/◌, ◌%◌, ◌≤◌, ◌<◌, length, drop};
ghost use Rattle.text.specs.Lead.{IsLead};
ghost use Rattle.text.specs.Passing.{Stepped};
ghost use Rattle.text.specs.Text.{within, tails, character, valid_up_to, boundary, text_fault};
ghost use Rattle.refusal.specs.Lent.{was};

use crate::lead;
use crate::strides::{is_tail, past_all_blocks, past_runs, past_steps};
use refusal::Fault;

// The byte is in the range of the second byte that this entry of the lead table has.
fn is_second(entry: u32, x: u8) -> bool
    ensures { result ≡ within (entry / 0x1_00 % 0x1_00) (entry % 0x1_00) x }
{
    let y = x as u32;
    entry / 0x1_00 % 0x1_00 <= y && y <= entry % 0x1_00
}

// The n bytes at i, two at most, continue a character.
fn are_tails(s: &[u8], i: usize, n: usize) -> bool
    requires { (n ≤ 2) × (i + n ≤ length s.now) }
    ensures { result ≡ tails n (drop i (was s)) }
{
    n == 0 || is_tail(s[i]) && (n == 1 || is_tail(s[i + 1]))
}

// How many bytes the well-formed character at i takes; 0 where there is none.
fn character_at(table: &[u32; 256], s: &[u8], i: usize) -> usize
    requires { IsLead table.now }
    ensures { result ≡ character (drop i (was s)) }
{
    if s.len() <= i {
        return 0;
    }
    let entry = lead::entry(table, s[i]);
    let n = (entry / 0x1_00_00) as usize;
    if n < 2 {
        return n;
    }
    let is_whole = n <= s.len() - i && is_second(entry, s[i + 1]) && are_tails(s, i + 2, n - 2);
    if is_whole { n } else { 0 }
}

// The end of the character at i, which the table finds, and of the runs after it; i itself where no character begins there.
fn step(table: &[u32; 256], s: &[u8], i: usize) -> usize
    requires { IsLead table.now × (i < length s.now) }
    ensures { Stepped (was s) i result }
{
    match character_at(table, s, i) {
        0 => i,
        n => past_runs(s, i + n),
    }
}

// Where the whole well-formed characters from i on end.
fn valid_by(table: &[u32; 256], s: &[u8], i: usize) -> usize
    requires { IsLead table.now × (i ≤ length s.now) }
    ensures { result ≡ i + valid_up_to (drop i (was s)) }
{
    past_steps(s, i, 0, |at| step(table, s, at))
}

// The same with the lead table, which is laid out once for the text.
fn valid_from(s: &[u8], i: usize) -> usize
    requires { i ≤ length s.now }
    ensures { result ≡ i + valid_up_to (drop i (was s)) }
{
    valid_by(&lead::LEAD, s, i)
}

// The same. A text whose every character the strides pass needs no table.
fn valid_after(s: &[u8], i: usize) -> usize
    requires { i ≤ length s.now }
    ensures { result ≡ i + valid_up_to (drop i (was s)) }
{
    let at = past_runs(s, i);
    if at == s.len() { at } else { valid_from(s, at) }
}

// The length of the longest prefix made of whole well-formed characters. What most texts need, blocks of ASCII, stands by
// itself: so short, it is compiled into its callers.
pub fn valid_up_to(s: &[u8]) -> usize
    ensures { result ≡ valid_up_to (was s) }
{
    let ascii = past_all_blocks(s, 0);
    if ascii == s.len() {
        ascii
    } else {
        valid_after(s, ascii)
    }
}

// Whether the bytes are text.
pub fn judge(s: &[u8]) -> Result<(), Fault>
    ensures { result_err result ≡ text_fault (was s) }
{
    if valid_up_to(s) < s.len() {
        Err(Fault::Text)
    } else {
        Ok(())
    }
}

// A character begins at i, or the text ends there.
pub fn is_boundary(s: &[u8], i: usize) -> bool
    ensures { result ≡ boundary (was s) i }
{
    match s.get(i) {
        Some(b) => !is_tail(*b),
        None => i == s.len(),
    }
}
