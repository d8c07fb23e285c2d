// The ids of a word, for layers above that have tested the parts, or all. But for `encode_tested` nothing here refuses.
ghost use Rattle.std.specs.Result.{result_err};
ghost use Rattle.std.specs.Prelude.{◌≡◌, cond, List, [], ◌∷◌, ℕ, ◌+◌, ◌≤◌, ◌<◌, ltb, true, length, set, None, Some, unwrap_or};
ghost use Rattle.refusal.specs.Places.{overlay};
ghost use Rattle.text.specs.Text.{well_formed, boundary, characters};
ghost use Rattle.trie.specs.Trie.{parts, id_at, id_from, id_of};
ghost use Rattle.trie.specs.Sound as soundness;
ghost use Rattle.wordpiece.specs.Pieces.{longest_to, pieces_of, ids_of};
ghost use Rattle.wordpiece.specs.Encode.{encode_fault, Encoded};
ghost use Rattle.wordpiece.specs.Checked.{found_in, rest_from, NodeOf, Walked, Kept, Encodable};
ghost use Rattle.refusal.specs.Lent.{was};

use crate::VocabTrie;
use refusal::{Fault, MAX_PREFIX, MAX_TEXT};
use trie::Parts;
use trie::checked::Walk;

// A piece that was found: where it ends, and its id.
#[derive(Clone, Copy)]
pub struct Piece {
    pub end: usize,
    pub id: u32,
}

// How many ids the first walk over a word's later pieces keeps. A word with more of them is walked again.
const HELD: usize = 32;

// The id of the piece that ends at byte j, where the walk has come to: j is a boundary, and the walk's node has an id.
fn ending(t: &Parts, w: &[u8], at: Walk, j: usize) -> Option<u32>
    requires { at.node < length t.now.id.now }
    ensures { result ≡ cond (boundary (was w) j) (id_at (parts t.now) at.node) None }
{
    if text::utf8::is_boundary(w, j) {
        trie::checked::id_at(t, at)
    } else {
        None
    }
}

// The longest piece of w from i, after what the node of the walk spells.
pub(crate) fn longest(t: &Parts, from: Walk, w: &[u8], i: usize) -> Option<Piece>
    requires node { NodeOf (parts t.now) from.node }
    requires below { i ≤ length w.now }
    ensures { found_in result ≡ longest_to (id_from (parts t.now) from.node) [] (was w) i (length (was w)) }
{
    let mut here = from;
    let mut best = None;
    for j in i..w.len() {
        let Some(next) = here.step(t, w[j]) else {
            return best;
        };
        here = next;
        if let Some(id) = ending(t, w, here, j + 1) {
            best = Some(Piece { end: j + 1, id });
        }
    }
    best
}

// x in place n, where there is such a place.
fn hold(ids: &mut [u32], n: usize, x: u32)
    ensures { ids.new ≡ set ids.old n x }
{
    // Not by `get_mut`: where that finds no place, it doesn't say that the slice is as it was.
    if n < ids.len() {
        ids[n] = x;
    }
}

// How many pieces w has from i on, each going on from the walk's node; none at a miss. Without one, their ids are then in the
// places, as many as there are places for.
fn write_rest(t: &Parts, rest: Walk, w: &[u8], i: usize, ids: &mut [u32]) -> Option<usize>
    requires node { NodeOf (parts t.now) rest.node }
    requires below { i ≤ length w.now }
    ensures { Walked (rest_from (id_from (parts t.now) rest.node) (was w) i) ids.old result ids.new }
{
    let mut at = i;
    let mut n: usize = 0;
    // A `while`, since it goes from piece to piece and counts no index.
    while at < w.len() {
        let Some(piece) = longest(t, rest, w, at) else {
            return None;
        };
        at = piece.end;
        hold(ids, n, piece.id);
        n += 1;
    }
    Some(n)
}

// Whether w has more than `limit` characters. A text of no more bytes than that has not.
fn too_long(w: &[u8], limit: u32) -> bool
    requires { well_formed w.now ≡ true }
    ensures { result ≡ ltb limit (characters (was w)) }
{
    let most = limit as usize;
    most < w.len() && most < text::checked::characters(w)
}

// One id in the first place.
fn put(ids: &mut [u32], x: u32) -> usize
    requires { 1 ≤ length ids.old }
    ensures { (result ≡ 1) × (ids.new ≡ overlay (x ∷ []) ids.old) }
{
    ids[0] = x;
    1
}

// The first piece's id, and then those of the n pieces after it: as they are held, or found again where they are too many to be
// held.
fn put_all(
    t: &Parts,
    rest: Walk,
    w: &[u8],
    first: Piece,
    held: &[u32],
    n: usize,
    ids: &mut [u32],
) -> usize
    requires node { NodeOf (parts t.now) rest.node }
    requires kept { Kept (id_from (parts t.now) rest.node) w.now first.end ids.old held.now n }
    ensures { (xs : List ℕ) → rest_from (id_from (parts t.now) rest.node) (was w) first.end ≡ Some xs →
        (result ≡ 1 + length xs) × (ids.new ≡ overlay (first.id ∷ xs) ids.old) }
{
    ids[0] = first.id;
    if n <= held.len() {
        ids[1..=n].copy_from_slice(&held[..n]);
    } else {
        write_rest(t, rest, w, first.end, &mut ids[1..]);
    }
    1 + n
}

// The ids of a word of more than its first piece: an absent prefix or a miss makes it one unknown. A late miss is known before
// anything is written, so that no place past the answer is touched; the ids that the walk finds are held until then.
fn encode_rest(v: &VocabTrie, w: &[u8], first: Piece, ids: &mut [u32]) -> usize
    requires encodable { Encodable (parts v.now.trie) w.now ids.old }
    requires longest { longest_to (id_of (parts v.now.trie)) [] w.now 0 (length w.now) ≡ found_in (Some first) }
    requires below { first.end < length w.now }
    ensures { let all = unwrap_or (pieces_of (id_of (parts v.now.trie)) v.now.prefix.now (was w)) (v.now.unknown ∷ []) in
        (result ≡ length all) × (ids.new ≡ overlay all ids.old) }
{
    let Some(rest) = Walk::root().over(&v.trie, v.prefix) else {
        return put(ids, v.unknown);
    };
    let mut held = [0u32; HELD];
    match write_rest(&v.trie, rest, w, first.end, &mut held) {
        Some(n) => put_all(&v.trie, rest, w, first, &held, n, ids),
        None => put(ids, v.unknown),
    }
}

// The ids of a word, in the first places; answers how many. Places past them stay as they are, also after a late miss.
pub fn encode(v: &VocabTrie, word: &[u8], ids: &mut [u32]) -> usize
    requires { Encodable (parts v.now.trie) word.now ids.old }
    ensures { let all = ids_of (id_of (parts v.now.trie)) v.now.unknown v.now.max_chars v.now.prefix.now (was word) in
        (result ≡ length all) × (ids.new ≡ overlay all ids.old) }
{
    if word.is_empty() {
        return 0;
    }
    if too_long(word, v.max_chars) {
        return put(ids, v.unknown);
    }
    let Some(first) = longest(&v.trie, Walk::root(), word, 0) else {
        return put(ids, v.unknown);
    };
    if first.end == word.len() {
        return put(ids, first.id);
    }
    encode_rest(v, word, first, ids)
}

// The first fault of a call of `encode` in parts that are sound or not, lent this many id places: the sizes, the parts, the
// word, the prefix, the places.
fn judge(sound: bool, prefix: &[u8], word: &[u8], places: usize) -> Result<(), Fault>
    ensures { result_err result ≡ encode_fault sound (was prefix) (was word) places }
{
    if MAX_TEXT < word.len() || MAX_PREFIX < prefix.len() {
        return Err(Fault::Size);
    }
    if !sound {
        return Err(Fault::Trie);
    }
    text::utf8::judge(word)?;
    text::utf8::judge(prefix)?;
    if places < text::checked::characters(word) {
        return Err(Fault::Ids);
    }
    Ok(())
}

// As `wordpiece::encode`, where the parts have been tested: `sound` is what was found. So that one test serves many words. It
// is a flag beside the parts, since the promise speaks of them also where they are not sound: 8 keeps its place in the order.
pub fn encode_tested(
    v: &VocabTrie,
    sound: bool,
    word: &[u8],
    ids: &mut [u32],
) -> Result<usize, Fault>
    requires { sound ≡ soundness.sound (parts v.now.trie) }
    ensures { Encoded (parts v.now.trie) v.now.unknown v.now.max_chars v.now.prefix.now (was word) ids.old result ids.new }
{
    judge(sound, v.prefix, word, ids.len())?;
    Ok(encode(v, word, ids))
}
