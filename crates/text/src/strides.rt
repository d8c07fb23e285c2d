// Text passed over in long strides. What tests of the bytes alone tell to be characters is passed, by blocks or by runs; where
// they can't tell, the stride ends, and what stands there is for the lead table to decide.
ghost use Rattle.std.specs.Prelude.{◌≡◌, ℕ, true, ◌+◌, ◌^◌, ◌≤◌, ◌<◌, length, drop};
ghost use Rattle.text.specs.Passing.{Ascii, Follows, Paired, Fits, Fit, Begins, Passed};
ghost use Rattle.text.specs.Text.{tail, character};
ghost use Rattle.refusal.specs.Lent.{was};

// 80-BF: the byte continues a character.
pub(crate) fn is_tail(b: u8) -> bool
    ensures { result ≡ tail b }
{
    b / 64 == 2
}

// The end of the steps from i on, each taken where more than `short` bytes are left. One that stays where it is is the last.
pub(crate) fn past_steps<F: Fn(usize) -> usize>(s: &[u8], i: usize, short: usize, step: F) -> usize
    requires inside { i ≤ length s.now }
    requires callable { (at : ℕ) → at + short < length s.now → F.pre step at }
    requires passes { (at next : ℕ) → at + short < length s.now → F.post step at next → Passed s.now at next }
    ensures passed { Passed (was s) i result }
    ensures last { result + short < length s.now → F.post step result result }
{
    let mut at = i;
    while short < s.len() - at {
        let next = step(at);
        if next == at {
            return at;
        }
        at = next;
    }
    at
}

// The end of the pieces of n bytes from i on that the test tells to be whole characters.
fn past_pieces<F: Fn(usize) -> bool>(s: &[u8], i: usize, n: usize, is_whole: F) -> usize
    requires some { 0 < n }
    requires inside { i ≤ length s.now }
    requires callable { (at : ℕ) → at + n ≤ length s.now → F.pre is_whole at }
    requires passes { (at : ℕ) → at + n ≤ length s.now → F.post is_whole at true → Passed s.now at (at + n) }
    ensures { Passed (was s) i result }
{
    past_steps(s, i, n - 1, |at| if is_whole(at) { at + n } else { at })
}

// The test holds at each of the n places from i on: those where it does add up to n. A u8 counts them, with no branch between
// them, so that the loop compiles to vector code; with `&=` on a bool 16 bytes of ASCII took 1.7 times as long.
fn all_hold<F: Fn(usize) -> bool>(i: usize, n: usize, test: F) -> bool
    requires small { (n ≤ 255) × (i + n < 2 ^ 64) }
    requires callable { (k : ℕ) → i ≤ k → k < i + n → F.pre test k }
    ensures { result ≡ true → (k : ℕ) → i ≤ k → k < i + n → F.post test k true }
{
    let mut held: u8 = 0;
    for k in 0..n {
        held += test(i + k) as u8;
    }
    held as usize == n
}

// How many bytes are looked at together, without a branch between them. A long block compiles to sixteen at a time.
const LONG: usize = 64;

// A short one compiles to all eight at once.
const SHORT: usize = 8;

// The n bytes at i are all ASCII.
fn is_ascii(s: &[u8], i: usize, n: usize) -> bool
    requires { (n ≤ 255) × (i + n ≤ length s.now) }
    ensures { result ≡ true → Ascii (was s) i (i + n) }
{
    all_hold(i, n, |k| s[k] < 128)
}

// The end of the whole blocks of n bytes of ASCII at i.
fn past_blocks(s: &[u8], i: usize, n: usize) -> usize
    requires { (0 < n) × (n ≤ 255) × (i ≤ length s.now) }
    ensures { Passed (was s) i result }
{
    past_pieces(s, i, n, |at| is_ascii(s, at, n))
}

// The same of long blocks and then of short ones.
pub(crate) fn past_all_blocks(s: &[u8], i: usize) -> usize
    requires { i ≤ length s.now }
    ensures { Passed (was s) i result }
{
    past_blocks(s, past_blocks(s, i, LONG), SHORT)
}

// The end of the byte of ASCII at i, and of the blocks after it from an eighth place on, so that a short run costs no block.
fn past_byte(s: &[u8], i: usize) -> usize
    requires { i < length s.now }
    ensures { Passed (was s) i result }
{
    if 128 <= s[i] {
        return i;
    }
    let next = i + 1;
    if next % SHORT == 0 {
        past_all_blocks(s, next)
    } else {
        next
    }
}

// The end of the run of ASCII at i.
fn past_ascii(s: &[u8], i: usize) -> usize
    requires { i ≤ length s.now }
    ensures { Passed (was s) i result }
{
    past_steps(s, i, 0, |at| past_byte(s, at))
}

// How many bytes outside ASCII are looked at together. It compiles to sixteen at a time, and to no branch for each character,
// which would often be guessed wrong.
const BLOCK: usize = 32;

// b may stand before c in a text of ASCII and characters of two bytes.
fn follows(b: u8, c: u8) -> bool
    ensures { result ≡ true → Follows b c }
{
    (c / 64 == 2) == (0xC0 <= b) && (b < 0xC0 || 0xC2 <= b && b <= 0xDF)
}

// Each of the BLOCK bytes at i may stand before the next.
fn is_paired(s: &[u8], i: usize) -> bool
    requires { i + 32 < length s.now }
    ensures { result ≡ true → Paired (was s) i (i + 32) }
{
    all_hold(i, BLOCK, |k| follows(s[k], s[k + 1]))
}

// The end of the block of such text at i, one further where the block's last byte begins a character; i itself where there is
// no such block.
fn past_pair_block(s: &[u8], i: usize) -> usize
    requires { i + 32 < length s.now }
    ensures { Passed (was s) i result }
{
    if is_tail(s[i]) || !is_paired(s, i) {
        return i;
    }
    let end = i + BLOCK;
    if is_tail(s[end]) { end + 1 } else { end }
}

// The same for a text of characters of up to three bytes: a may stand before b and c. C0 and C1 are those with a / 2 = 60.
fn fits(a: u8, b: u8, c: u8) -> bool
    ensures { result ≡ true → Fits a b c }
{
    (c / 64 == 2) == (0xE0 <= a || 0xC0 <= b)
        && a < 0xF0
        && a / 2 != 0x60
        && (a != 0xE0 || 0xA0 <= b)
        && (a != 0xED || b <= 0x9F)
}

// Each of the BLOCK bytes at i may stand before the next two.
fn is_fit(s: &[u8], i: usize) -> bool
    requires { i + 33 < length s.now }
    ensures { result ≡ true → Fit (was s) i (i + 32) }
{
    all_hold(i, BLOCK, |k| fits(s[k], s[k + 1], s[k + 2]))
}

// A character begins with a, and goes on with b where it has more than one byte.
fn begins(a: u8, b: u8) -> bool
    ensures { result ≡ true → Begins a b }
{
    a / 64 != 2 && (b / 64 == 2) == (0xC0 <= a)
}

// The end of the block of such text at i, up to two further where the block's last character goes on; i itself where there is
// no such block.
fn past_fit_block(s: &[u8], i: usize) -> usize
    requires { i + 33 < length s.now }
    ensures { Passed (was s) i result }
{
    if !begins(s[i], s[i + 1]) || !is_fit(s, i) {
        return i;
    }
    let end = i + BLOCK;
    if !is_tail(s[end]) {
        return end;
    }
    if is_tail(s[end + 1]) {
        end + 2
    } else {
        end + 1
    }
}

// The two bytes at i are a character: C2-DF and a tail.
#[tactic(auto, using(crate::proofs::Plain::plain))]
fn is_two(s: &[u8], i: usize) -> bool
    requires { i + 2 ≤ length s.now }
    ensures { result ≡ true → character (drop i (was s)) ≡ 2 }
{
    0xC2 <= s[i] && s[i] <= 0xDF && is_tail(s[i + 1])
}

// The three bytes at i are a character: E0-EF and two tails. Its value over 2048 is not 0, which has shorter forms (E0 before
// 80-9F), and not 27, the surrogates from 27 * 2048 = D800 on (ED before A0-BF). One number for both, since a branch on ED is
// often guessed wrong.
#[tactic(auto, using(crate::proofs::Plain::plain))]
fn is_three(s: &[u8], i: usize) -> bool
    requires { i + 3 ≤ length s.now }
    ensures { result ≡ true → character (drop i (was s)) ≡ 3 }
{
    let (b, x) = (s[i], s[i + 1]);
    let part = b % 16 * 2 + x % 64 / 32;
    b / 16 == 14 && is_tail(x) && is_tail(s[i + 2]) && part != 0 && part != 27
}

// The four bytes at i are a character that F0 begins: 90-BF and two tails after it. The rare ones, which F1-F4 begin, are left
// to the table.
#[tactic(auto, using(crate::proofs::Plain::plain))]
fn is_four(s: &[u8], i: usize) -> bool
    requires { i + 4 ≤ length s.now }
    ensures { result ≡ true → character (drop i (was s)) ≡ 4 }
{
    s[i] == 0xF0 && 0x90 <= s[i + 1] && s[i + 1] <= 0xBF && is_tail(s[i + 2]) && is_tail(s[i + 3])
}

// The end of the run at i: of ASCII; from a longer character on, of blocks of characters up to its length, and then of those as
// long as it.
fn past_run(s: &[u8], i: usize) -> usize
    requires { i < length s.now }
    ensures { Passed (was s) i result }
{
    match s[i] {
        0..0x80 => past_ascii(s, i + 1),
        0x80..0xE0 => {
            let end = past_steps(s, i, BLOCK, |at| past_pair_block(s, at));
            past_pieces(s, end, 2, |at| is_two(s, at))
        }
        0xE0..0xF0 => {
            let end = past_steps(s, i, BLOCK + 1, |at| past_fit_block(s, at));
            past_pieces(s, end, 3, |at| is_three(s, at))
        }
        _ => past_pieces(s, i, 4, |at| is_four(s, at)),
    }
}

// The end of the runs at i, one after the other. What stands there is for the table to decide.
pub(crate) fn past_runs(s: &[u8], i: usize) -> usize
    requires { i ≤ length s.now }
    ensures { Passed (was s) i result }
{
    past_steps(s, i, 0, |at| past_run(s, at))
}
