// The records, filled boundary by boundary: each piece that starts at a boundary is offered to the slot where it ends.
ghost use Rattle.std.specs.Prelude.{◌≡◌, ◌≤◌, ◌<◌, length};
ghost use Rattle.doubles.specs.Units.{units};
ghost use Rattle.trie.specs.Trie.{parts};
ghost use Rattle.trie.specs.Walks.{Leads};
ghost use Rattle.cutting.specs.Slots.{Inside, slots_is, slots_now, slots_was};
ghost use Rattle.unigram.specs.Work.{model, Ended, Walkable, KnownOffered, Ready, Come, Recorded, BestCutting};
ghost use Rattle.refusal.specs.Lent.{was};
ghost use Rattle.text.specs.Text.{characters, next};

use crate::Model;
use cutting::slots::Slot;
use refusal::NO_ID;
use trie::checked::Walk;

// A walk from `at` has come to `here` at i. If i is a boundary and the node has an id, the piece is offered to the slot at i.
// Answers `single`, or true where that piece ends at `one`.
fn end_at(
    m: &Model,
    text: &[u8],
    here: Walk,
    i: usize,
    one: usize,
    single: bool,
    at: usize,
    till: f64,
    start: &mut [u32],
    slot_id: &mut [u32],
    slot_score: &mut [f64],
) -> bool
    requires { (here.node < length m.now.trie.id.now) × (here.node < length m.now.score.now) × (at ≤ 65536) ×
        Inside start.old slot_id.old slot_score.old i }
    ensures { Ended (model m.now) (was text) here.node i one single at (units till) (slots_was start slot_id slot_score)
        (slots_is start slot_id slot_score) result }
{
    if !text::utf8::is_boundary(text, i) {
        return single;
    }
    let Some(x) = trie::checked::id_at(&m.trie, here) else {
        return single;
    };
    let q = Slot {
        start: at as u32,
        id: x,
        score: doubles::added(till, m.score[here.node as usize]),
    };
    cutting::slots::offer(start, slot_id, slot_score, i, q);
    single || i == one
}

// Offers each string with an id that starts at `at`, longer by a byte at each turn. Answers whether one of them ends at `one`.
// `till` is the score that stands before them, `first` the table of the root's edges.
fn offer_known(
    m: &Model,
    text: &[u8],
    at: usize,
    one: usize,
    till: f64,
    start: &mut [u32],
    slot_id: &mut [u32],
    slot_score: &mut [f64],
    first: &[u32],
) -> bool
    requires { Walkable (model m.now) text.now at one × Inside start.old slot_id.old slot_score.old (length text.now) ×
        Leads (parts m.now.trie) first.now }
    ensures { KnownOffered (model m.now) (was text) at one (units till) (slots_was start slot_id slot_score)
        (slots_is start slot_id slot_score) result }
{
    let mut here = Walk::root();
    let mut single = false;
    for i in at..text.len() {
        let Some(next) = here.step_by(&m.trie, first, text[i]) else {
            return single;
        };
        here = next;
        single = end_at(
            m,
            text,
            here,
            i + 1,
            one,
            single,
            at,
            till,
            start,
            slot_id,
            slot_score,
        );
    }
    single
}

// The work from the boundary `at` to the next, which it answers: each piece that starts here is offered. If no string with an
// id is exactly one character long, that one character is also a piece, with the unknown id and score.
fn work_at(
    m: &Model,
    text: &[u8],
    at: usize,
    start: &mut [u32],
    slot_id: &mut [u32],
    slot_score: &mut [f64],
    first: &[u32],
) -> usize
    requires { Come (model m.now) text.now at start.old slot_id.old slot_score.old (slots_now start slot_id slot_score) ×
        Leads (parts m.now.trie) first.now }
    ensures { (result ≡ next (was text) at) × Recorded (model m.now) (was text) result
        (slots_was start slot_id slot_score) (slots_is start slot_id slot_score) }
{
    let till = slot_score[at];
    let one = at + text::lead::char_len(text[at]);
    if offer_known(m, text, at, one, till, start, slot_id, slot_score, first) {
        return one;
    }
    let q = Slot {
        start: at as u32,
        id: m.unknown,
        score: doubles::added(till, m.unknown_score),
    };
    cutting::slots::offer(start, slot_id, slot_score, one, q);
    one
}

// Fills the slots up to the text's length with the records. Each start steps from the root, so its edges are laid out once. A
// `while`, since it goes from boundary to boundary and counts no index.
fn fill(m: &Model, text: &[u8], start: &mut [u32], slot_id: &mut [u32], slot_score: &mut [f64])
    requires { Ready (model m.now) text.now × Inside start.old slot_id.old slot_score.old (length text.now) }
    ensures { Recorded (model m.now) (was text) (length (was text)) (slots_was start slot_id slot_score)
        (slots_is start slot_id slot_score) }
{
    cutting::slots::clear(start, slot_id, slot_score, text.len());
    let mut first = [NO_ID; 256];
    trie::checked::fill_first(&m.trie, &mut first);
    let mut at: usize = 0;
    while at < text.len() {
        at = work_at(m, text, at, start, slot_id, slot_score, &first);
    }
}

// Fills the slots with the records, and the first path places with the ends of the best cutting's pieces. Answers how many
// pieces there are.
pub(crate) fn best_cutting(
    m: &Model,
    text: &[u8],
    start: &mut [u32],
    slot_id: &mut [u32],
    slot_score: &mut [f64],
    path: &mut [u32],
) -> usize
    requires { Ready (model m.now) text.now × Inside start.old slot_id.old slot_score.old (length text.now) ×
        (characters text.now ≤ length path.old) }
    ensures { BestCutting (model m.now) (was text) (slots_was start slot_id slot_score) path.old
        (slots_is start slot_id slot_score) path.new result }
{
    fill(m, text, start, slot_id, slot_score);
    cutting::path::trace(start, text.len(), path)
}
