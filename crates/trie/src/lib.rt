// Trie parts in lent columns: soundness, steps and walks, and looking a string up.
#![tactic(auto)]

use refusal::{Fault, MAX_TEXT};

pub mod checked;
pub mod soundness;

ghost use Rattle.std.specs.Prelude.{◌≡◌, true, ◌≤◌, length};
ghost use Rattle.doubles.specs.Units.{units, scores_was};
ghost use Rattle.trie.specs.Trie.{parts};
ghost use Rattle.trie.specs.Sound.{sound, sound_scored};
ghost use Rattle.trie.specs.Lookup.{LookedUp};
ghost use Rattle.refusal.specs.Lent.{was};

// The parts of a trie as they are lent: a column for each number that a node has, its first edge, its edge count and its id,
// and for each that an edge has, its byte and its target. The score column of a Unigram trie is lent beside these.
#[derive(Clone, Copy)]
pub struct Parts<'a> {
    pub edge_at: &'a [u32],
    pub edge_n: &'a [u16],
    pub id: &'a [u32],
    pub byte: &'a [u8],
    pub to: &'a [u32],
}

// The look-up in sound parts of a text within the limit: what is left to refuse is an ill-formed text.
fn look_up(t: &Parts, s: &[u8]) -> Result<Option<u32>, Fault>
    requires { (sound (parts t.now) ≡ true) × (length s.now ≤ 65536) }
    ensures { LookedUp true (parts t.now) (was s) result }
{
    text::utf8::judge(s)?;
    Ok(checked::exact(t, s))
}

// The id of a text in a Unigram trie's parts: refused are a text above the limit, then parts that are not sound, then an
// ill-formed text.
pub fn exact(
    t: &Parts,
    score: &[f64],
    unknown_score: f64,
    text: &[u8],
) -> Result<Option<u32>, Fault>
    ensures { LookedUp (sound_scored (parts t.now) (scores_was score) (units unknown_score)) (parts t.now) (was text) result }
{
    if MAX_TEXT < text.len() {
        return Err(Fault::Size);
    }
    if !soundness::sound_scored(t, score, unknown_score) {
        return Err(Fault::Trie);
    }
    look_up(t, text)
}

// The same in parts without scores.
pub fn exact_unscored(t: &Parts, text: &[u8]) -> Result<Option<u32>, Fault>
    ensures { LookedUp (sound (parts t.now)) (parts t.now) (was text) result }
{
    if MAX_TEXT < text.len() {
        return Err(Fault::Size);
    }
    if !soundness::sound(t) {
        return Err(Fault::Trie);
    }
    look_up(t, text)
}
