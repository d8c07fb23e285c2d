// Unigram: `segment`, the cutting of a text with the highest sum of scores.
#![tactic(auto)]

use refusal::Fault;
use trie::Parts;

pub mod checked;
mod lattice;
mod runs;

ghost use Rattle.std.specs.Prelude.{◌≡◌};
ghost use Rattle.unigram.specs.Work.{model};
ghost use Rattle.unigram.specs.Segment.{sound_model, Segmented};
ghost use Rattle.unigram.specs.Checked.{scratch_is, scratch_was};
ghost use Rattle.refusal.specs.Lent.{was};

// A Unigram trie's parts with a score for each node, and the unknown piece's id and score, as they are lent.
#[derive(Clone, Copy)]
pub struct Model<'a> {
    pub trie: Parts<'a>,
    pub score: &'a [f64],
    pub unknown: u32,
    pub unknown_score: f64,
}

impl Model<'_> {
    // The parts are sound, each node has a score, and the scores and that of the unknown piece are finite.
    pub fn sound(&self) -> bool
        ensures { result ≡ sound_model (model self.now) }
    {
        trie::soundness::sound_scored(&self.trie, self.score, self.unknown_score)
    }
}

// The ids of the text's cutting with the highest sum of scores. Refused are, in this order, a text above the limit, parts that
// are not sound, an ill-formed text, too little scratch, too few id places; a refused call and an empty text write nothing.
// What the scratch held has no effect. The scratch columns are no struct: of one, each contract would have to say, column by
// column, that it still holds the same reference.
pub fn segment(
    m: &Model,
    text: &[u8],
    start: &mut [u32],
    slot_id: &mut [u32],
    slot_score: &mut [f64],
    path: &mut [u32],
    ids: &mut [u32],
) -> Result<usize, Fault>
    ensures { Segmented (model m.now) (was text) (scratch_was start slot_id slot_score path ids) result
        (scratch_is start slot_id slot_score path ids) }
{
    checked::segment_tested(m, m.sound(), text, start, slot_id, slot_score, path, ids)
}
