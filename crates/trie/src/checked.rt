// Steps and walks in sound parts, for layers above that have tested soundness once: each function asks for sound parts and
// refuses nothing.
ghost use Rattle.std.specs.Prelude.{◌≡◌, true, cond, ◌+◌, ◌≤◌, ◌<◌, leb, length, get_or, replicate};
ghost use Rattle.refusal.specs.Sizes.{no_id};
ghost use Rattle.trie.specs.Trie.{parts, seek, step, walk, id_at, id_of};
ghost use Rattle.trie.specs.Sound.{rises, sound};
ghost use Rattle.trie.specs.Walks.{Stands, next_of, marked, Leads};
ghost use Rattle.refusal.specs.Lent.{was};

use crate::Parts;
use refusal::NO_ID;

// A position in the trie: the node that the bytes so far lead to.
#[derive(Clone, Copy)]
pub struct Walk {
    pub node: u32,
}

// `part` where x is at most b, else 0. By a number and not a branch: the next byte of a text can't be foretold, and a wrong
// guess costs more than the rest of a turn.
fn passed(part: usize, x: u8, b: u8) -> usize
    ensures { (result ≡ cond (leb x b) part 0) × (result ≤ part) }
{
    part * ((256 + b as usize - x as usize) / 256)
}

// The target of the byte b among the n edges from `at` on, which are three at most. A loop over three places is compiled to
// three tests; over n places it stays a loop, and a walk over single edges took a twentieth more instructions.
#[tactic(auto, using(crate::proofs::Seeking::one_by_one))]
fn seek_few(byte: &[u8], to: &[u32], at: usize, n: usize, b: u8) -> Option<Walk>
    requires { (n ≤ 3) × (at + n ≤ length byte.now) × (at + n ≤ length to.now) }
    ensures { next_of result ≡ seek (was byte) (was to) b at n }
{
    for k in 0..3 {
        if n <= k {
            return None;
        }
        if byte[at + k] == b {
            return Some(Walk { node: to[at + k] });
        }
    }
    None
}

// The target of the byte b among the n edges from `at` on. Their bytes rise, so each turn leaves out three quarters of those
// that are left: 4 turns for 256 edges. Its three reads don't wait for each other. A `while`, since it narrows what is left and
// doesn't count.
fn seek(byte: &[u8], to: &[u32], at: usize, n: usize, b: u8) -> Option<Walk>
    requires { (at + n ≤ length byte.now) × (at + n ≤ length to.now) × (rises byte.now at n ≡ true) }
    ensures { next_of result ≡ seek (was byte) (was to) b at n }
{
    let mut low = at;
    let mut left = n;
    while 3 < left {
        let part = left / 4;
        let one = passed(part, byte[low + part], b);
        let two = passed(part, byte[low + 2 * part], b);
        let three = passed(part, byte[low + 3 * part], b);
        low += one + two + three;
        left -= 3 * part;
    }
    seek_few(byte, to, low, left, b)
}

// A node or an id, or none where the mark stands.
fn marked(x: u32) -> Option<u32>
    ensures { result ≡ marked x }
{
    if x == NO_ID { None } else { Some(x) }
}

// Makes the table of where each byte leads from the root, from marks alone. It goes from the last edge to the first: were there
// two with one byte, a search would find the first, and so would the table.
pub fn fill_first(t: &Parts, first: &mut [u32])
    requires { Stands (parts t.now) 0 × (first.old ≡ replicate 256 no_id) }
    ensures { Leads (parts t.now) first.new }
{
    let at = t.edge_at[0] as usize;
    let n = t.edge_n[0] as usize;
    for i in (0..n).rev() {
        first[t.byte[at + i] as usize] = t.to[at + i];
    }
}

impl Walk {
    // "Node 0 is the root."
    pub fn root() -> Walk
        ensures { result.node ≡ 0 }
    {
        Walk { node: 0 }
    }

    // Where the byte b leads from here, in parts with any ids.
    #[tactic(auto, unfolding(crate::specs::Trie::step))]
    pub fn step(self, t: &Parts, b: u8) -> Option<Walk>
        requires { Stands (parts t.now) self.node }
        ensures { next_of result ≡ step (parts t.now) self.node b }
    {
        let node = self.node as usize;
        seek(
            t.byte,
            t.to,
            t.edge_at[node] as usize,
            t.edge_n[node] as usize,
            b,
        )
    }

    // The same, with a table of where each byte leads from the root, in which no edge is looked for.
    pub fn step_by(self, t: &Parts, first: &[u32], b: u8) -> Option<Walk>
        requires stands { Stands (parts t.now) self.node }
        requires leads { Leads (parts t.now) first.now }
        ensures { next_of result ≡ step (parts t.now) self.node b }
    {
        if self.node == 0 {
            let node = marked(first[b as usize])?;
            return Some(Walk { node });
        }
        self.step(t, b)
    }

    // Where the bytes of s lead from here.
    pub fn over(self, t: &Parts, s: &[u8]) -> Option<Walk>
        requires { Stands (parts t.now) self.node }
        ensures { next_of result ≡ walk (parts t.now) self.node (was s) }
    {
        let mut here = self;
        for b in s {
            here = here.step(t, *b)?;
        }
        Some(here)
    }
}

// The id of the node of a position, in parts with any edges.
pub fn id_at(t: &Parts, at: Walk) -> Option<u32>
    requires { at.node < length t.now.id.now }
    ensures { result ≡ id_at (parts t.now) at.node }
{
    marked(t.id[at.node as usize])
}

// The id of the string s, if it has one.
pub fn exact(t: &Parts, s: &[u8]) -> Option<u32>
    requires { sound (parts t.now) ≡ true }
    ensures { result ≡ id_of (parts t.now) (was s) }
{
    id_at(t, Walk::root().over(t, s)?)
}
