// Runs of adjacent pieces with the unknown id become one id: that of the whole run's bytes if they have one, else the unknown
// id. A run that is still to come goes from `run` up to `at`; where the two are one, there is none.
ghost use Rattle.std.specs.Prelude.{◌≡◌, cond, ◌+◌, ◌<◌, eqb, length, None};
ghost use Rattle.trie.specs.Trie.{parts};
ghost use Rattle.unigram.specs.Runs.{run_id, merged};
ghost use Rattle.unigram.specs.Pieces.{part_id};
ghost use Rattle.unigram.specs.Merge.{run_ids, closing, Placed, Run, Mergeable};
ghost use Rattle.cutting.specs.Tracing.{steps_at};
ghost use Rattle.refusal.specs.Lent.{was};
ghost use Rattle.refusal.specs.Places.{overlay};

use crate::Model;

// The id of the run's bytes, the second look-up; the unknown id if they have none.
#[tactic(auto, unfolding(crate::specs::Runs::run_id))]
fn run_id(m: &Model, text: &[u8], run: usize, at: usize) -> u32
    requires { Run (parts m.now.trie) text.now run at }
    ensures { result ≡ run_id (part_id (parts m.now.trie) (was text)) m.now.unknown run at }
{
    trie::checked::exact(&m.trie, &text[run..at]).unwrap_or(m.unknown)
}

// Writes the id of the run, if there is one, at place n. Answers the place after it.
fn close_run(m: &Model, text: &[u8], run: usize, at: usize, n: usize, ids: &mut [u32]) -> usize
    requires { Run (parts m.now.trie) text.now run at × ((run < at) → n < length ids.old) }
    ensures { Placed (run_ids (part_id (parts m.now.trie) (was text)) m.now.unknown run at) ids.old n ids.new result }
{
    if at <= run {
        return n;
    }
    ids[n] = run_id(m, text, run, at);
    n + 1
}

// A piece with the id x comes: unless that is the unknown id, the run's id and x are written from place n on. Answers the place
// after them.
fn stand(m: &Model, text: &[u8], run: usize, at: usize, x: u32, n: usize, ids: &mut [u32]) -> usize
    requires { Run (parts m.now.trie) text.now run at ×
        (n + length (run_ids (part_id (parts m.now.trie) text.now) m.now.unknown run at) < length ids.old) }
    ensures { Placed (closing (part_id (parts m.now.trie) (was text)) m.now.unknown run at x) ids.old n ids.new result }
{
    if x == m.unknown {
        return n;
    }
    let k = close_run(m, text, run, at, n, ids);
    ids[k] = x;
    k + 1
}

// Where the run begins after a piece with the id x that ends at `end`.
fn run_after(m: &Model, x: u32, run: usize, end: usize) -> usize
    ensures { result ≡ cond (eqb x m.now.unknown) run end }
{
    if x == m.unknown { run } else { end }
}

// The ids of the pieces that end at `path`, runs merged, go to the first id places. Answers how many there are.
pub(crate) fn merge(m: &Model, text: &[u8], slot_id: &[u32], path: &[u32], ids: &mut [u32]) -> usize
    requires { Mergeable (parts m.now.trie) text.now slot_id.now path.now ids.old }
    ensures { let all = merged (part_id (parts m.now.trie) (was text)) m.now.unknown None 0
        (steps_at (was slot_id) (was path)) in (result ≡ length all) × (ids.new ≡ overlay all ids.old) }
{
    let mut n: usize = 0;
    let mut run: usize = 0;
    let mut at: usize = 0;
    for &place in path {
        let end = place as usize;
        let x = slot_id[end];
        n = stand(m, text, run, at, x, n, ids);
        run = run_after(m, x, run, end);
        at = end;
    }
    close_run(m, text, run, at, n, ids)
}
