// The cutting of a text, for layers above that have tested the parts, or all.
ghost use Rattle.std.specs.Result.{result_err};
ghost use Rattle.std.specs.Prelude.{◌≡◌, ◌&&◌, ◌||◌, [], ◌∷◌, ◌+◌, ltb, None, Ok};
ghost use Rattle.build.specs.Memory.{any_below};
ghost use Rattle.unigram.specs.Segment.{lengths, lengths_of, segment_fault, sound_model, Segmented};
ghost use Rattle.unigram.specs.Work.{model};
ghost use Rattle.unigram.specs.Checked.{scratch_is, scratch_now, scratch_was};
ghost use Rattle.refusal.specs.Lent.{was};

use crate::Model;
use refusal::{Fault, MAX_TEXT};

// Nothing is refused here: the parts are sound, the text is well-formed and within the limit, and there are enough places. The
// ids of the best cutting go to the first id places, the ends of its pieces to the first path places, the records to the slots;
// an empty text writes nothing. Answers how many ids there are.
pub fn segment(
    m: &Model,
    text: &[u8],
    start: &mut [u32],
    slot_id: &mut [u32],
    slot_score: &mut [f64],
    path: &mut [u32],
    ids: &mut [u32],
) -> usize
    requires { segment_fault (sound_model (model m.now)) text.now (lengths_of (scratch_now start slot_id slot_score path
        ids)) ≡ None }
    ensures { Segmented (model m.now) (was text) (scratch_was start slot_id slot_score path ids) (Ok result)
        (scratch_is start slot_id slot_score path ids) }
{
    if text.is_empty() {
        return 0;
    }
    let pieces = crate::lattice::best_cutting(m, text, start, slot_id, slot_score, path);
    crate::runs::merge(m, text, slot_id, &path[..pieces], ids)
}

// Non-empty text, and fewer slots in a column than bytes + 1, or fewer path places than characters.
#[tactic(auto, unfolding(build::specs::Memory::any_below))]
fn short_scratch(
    bytes: usize,
    characters: usize,
    starts: usize,
    slot_ids: usize,
    slot_scores: usize,
    places: usize,
) -> bool
    ensures { result ≡ (ltb 0 bytes && (any_below (bytes + 1) (starts ∷ slot_ids ∷ slot_scores ∷ []) || ltb places
        characters)) }
{
    0 < bytes
        && (starts <= bytes || slot_ids <= bytes || slot_scores <= bytes || places < characters)
}

// The first fault of a call of `segment` in parts that are sound or not, lent so many places: the size, the parts, the text,
// the scratch, the id places.
#[tactic(auto, using(crate::proofs::Refusing::first_fault), unfolding(refusal::specs::Refusal::first))]
fn judge(
    sound: bool,
    text: &[u8],
    starts: usize,
    slot_ids: usize,
    slot_scores: usize,
    path: usize,
    ids: usize,
) -> Result<(), Fault>
    ensures { result_err result ≡ segment_fault sound (was text) (lengths starts slot_ids slot_scores path ids) }
{
    if MAX_TEXT < text.len() {
        return Err(Fault::Size);
    }
    if !sound {
        return Err(Fault::Trie);
    }
    text::utf8::judge(text)?;
    let characters = text::checked::characters(text);
    if short_scratch(text.len(), characters, starts, slot_ids, slot_scores, path) {
        return Err(Fault::Scratch);
    }
    if ids < characters {
        return Err(Fault::Ids);
    }
    Ok(())
}

// As `unigram::segment`, where the parts have been tested: `sound` is what was found. So that one test serves many texts. It is
// told, and not asked for, since the promise speaks of parts that are not sound too: what is refused before them comes first.
pub fn segment_tested(
    m: &Model,
    sound: bool,
    text: &[u8],
    start: &mut [u32],
    slot_id: &mut [u32],
    slot_score: &mut [f64],
    path: &mut [u32],
    ids: &mut [u32],
) -> Result<usize, Fault>
    requires { sound ≡ sound_model (model m.now) }
    ensures { Segmented (model m.now) (was text) (scratch_was start slot_id slot_score path ids) result
        (scratch_is start slot_id slot_score path ids) }
{
    judge(
        sound,
        text,
        start.len(),
        slot_id.len(),
        slot_score.len(),
        path.len(),
        ids.len(),
    )?;
    Ok(segment(m, text, start, slot_id, slot_score, path, ids))
}
