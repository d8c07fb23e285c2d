// Which lent parts are sound. Each test answers for any columns of any lengths: what it reads lies inside, and a sum of two
// numbers of the columns fits. One pass over the nodes with their edges' bytes, one over the targets, one over the scores.
ghost use Rattle.std.specs.Prelude.{◌≡◌, ◌+◌, ◌≤◌, ltb, length, get_or};
ghost use Rattle.doubles.specs.Units.{units, scores_was};
ghost use Rattle.trie.specs.Trie.{parts};
ghost use Rattle.trie.specs.Sound.{every, rises, sound_edges, sound_node, sound, all_finite, sound_scored};
ghost use Rattle.refusal.specs.Lent.{was};

use crate::Parts;

// A node number is a u32, and the largest is no node's.
const MAX_NODES: usize = 4_294_967_295;

// An edge for each byte.
const MAX_EDGES: usize = 256;

// The bytes of the n edges from `at` on rise strictly.
fn rising(byte: &[u8], at: usize, n: usize) -> bool
    requires { at + n ≤ length byte.now }
    ensures { result ≡ rises (was byte) at n }
{
    byte[at..at + n].is_sorted_by(|a, b| *a < *b)
}

// The n edges from `at` on lie inside the edge part, are no more than 256, and rise.
fn edges_sound(byte: &[u8], at: u32, n: u16) -> bool
    ensures { result ≡ sound_edges (was byte) at n }
{
    let from = at as usize;
    let count = n as usize;
    from + count <= byte.len() && count <= MAX_EDGES && rising(byte, from, count)
}

// Every node's edges are sound. A `for` over the nodes, since a `zip` walks two columns and counts beside them.
fn nodes_sound(t: &Parts) -> bool
    requires { length t.now.edge_n.now ≡ length t.now.edge_at.now }
    ensures { result ≡ every (length t.now.edge_at.now) (sound_node (parts t.now)) }
{
    for k in 0..t.edge_at.len() {
        if !edges_sound(t.byte, t.edge_at[k], t.edge_n[k]) {
            return false;
        }
    }
    true
}

// Every target is below the number of nodes. A `for`, which is compiled to a test of the target and one of the end; as `all` a
// look-up in a small trie took a third longer.
fn targets_inside(to: &[u32], nodes: usize) -> bool
    ensures { result ≡ every (length (was to)) (λ e. ltb (get_or (was to) e 0) nodes) }
{
    for e in to {
        if nodes <= *e as usize {
            return false;
        }
    }
    true
}

// Every score is finite.
fn all_finite(score: &[f64]) -> bool
    ensures { result ≡ all_finite (scores_was score) }
{
    score.iter().all(|&x| doubles::is_finite(x))
}

// Parts without scores are sound. The columns' lengths are tested first.
#[tactic(auto, unfolding(crate::specs::Sound::sound))]
pub fn sound(t: &Parts) -> bool
    ensures { result ≡ sound (parts t.now) }
{
    let nodes = t.edge_at.len();
    0 < nodes
        && nodes <= MAX_NODES
        && t.edge_n.len() == nodes
        && t.id.len() == nodes
        && t.to.len() == t.byte.len()
        && nodes_sound(t)
        && targets_inside(t.to, nodes)
}

// A Unigram trie's parts with their scores are sound: also a score for each node, all finite, and a finite unknown score.
#[tactic(auto, unfolding(crate::specs::Sound::sound_scored))]
pub fn sound_scored(t: &Parts, score: &[f64], unknown_score: f64) -> bool
    ensures { result ≡ sound_scored (parts t.now) (scores_was score) (units unknown_score) }
{
    doubles::is_finite(unknown_score)
        && score.len() == t.edge_at.len()
        && sound(t)
        && all_finite(score)
}
