// A slot by value, read from and written to the three lent columns. "empty (start and id 4,294,967,295, score 0)": a slot is
// empty where its start is the mark.
ghost use Rattle.std.specs.Prelude.{◌≡◌};
ghost use Rattle.cutting.specs.Cuttings.{Slot};
ghost use Rattle.cutting.specs.Slots.{slot_at, held, Inside, PutAt, Cleared, taken, slots_is, slots_of, slots_was};
ghost use Rattle.refusal.specs.Lent.{was};

use refusal::NO_ID;

// Where the last piece starts, its id, and the score of the cutting that it ends.
#[derive(Clone, Copy)]
pub struct Slot {
    pub start: u32,
    pub id: u32,
    pub score: f64,
}

const EMPTY: Slot = Slot {
    start: NO_ID,
    id: NO_ID,
    score: 0.0,
};

// The slot at j.
pub fn slot_at(start: &[u32], slot_id: &[u32], slot_score: &[f64], j: usize) -> Slot
    requires { Inside start.now slot_id.now slot_score.now j }
    ensures { held result ≡ slot_at (slots_of (was start) (was slot_id) (was slot_score)) j }
{
    Slot {
        start: start[j],
        id: slot_id[j],
        score: slot_score[j],
    }
}

// Writes the slot at j.
pub fn put(start: &mut [u32], slot_id: &mut [u32], slot_score: &mut [f64], j: usize, q: Slot)
    requires { Inside start.old slot_id.old slot_score.old j }
    ensures { PutAt (slots_was start slot_id slot_score) j (held q) (slots_is start slot_id slot_score) }
{
    start[j] = q.start;
    slot_id[j] = q.id;
    slot_score[j] = q.score;
}

// Offers q to the slot at j, which keeps the better: an empty slot takes it, and a full one where its score is strictly
// greater.
pub fn offer(start: &mut [u32], slot_id: &mut [u32], slot_score: &mut [f64], j: usize, q: Slot)
    requires { Inside start.old slot_id.old slot_score.old j }
    ensures { let before = slots_was start slot_id slot_score in PutAt before j (taken (slot_at before j) (held q))
        (slots_is start slot_id slot_score) }
{
    let standing = slot_at(start, slot_id, slot_score, j);
    if standing.start == NO_ID || doubles::better(q.score, standing.score) {
        put(start, slot_id, slot_score, j, q);
    }
}

// Empties the slots up to n: what they held before has no effect.
pub fn clear(start: &mut [u32], slot_id: &mut [u32], slot_score: &mut [f64], n: usize)
    requires { Inside start.old slot_id.old slot_score.old n }
    ensures { Cleared (slots_was start slot_id slot_score) n (slots_is start slot_id slot_score) }
{
    for j in 0..n + 1 {
        put(start, slot_id, slot_score, j, EMPTY);
    }
}
