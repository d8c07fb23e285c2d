// The scores of a built trie's nodes, in their lent column.
ghost use Rattle.std.specs.Prelude.{◌≡◌, ◌≤◌, length, take};
ghost use Rattle.doubles.specs.Units.{units, scores_is, scores_was, scores_had};
ghost use Rattle.scored.specs.NodeScores.{row_score, filled_scores};
ghost use Rattle.refusal.specs.Lent.{was};

// The score of a row. The mark for no row is above every row, and has the score 0.
fn score_of(score: &[f64], row: u32) -> f64
    ensures { units result ≡ row_score (scores_was score) row }
{
    if (row as usize) < score.len() {
        score[row as usize]
    } else {
        0.0
    }
}

// The first n places are given the scores of the first n nodes, whose rows are given; the others are zero.
pub(crate) fn fill(score: &[f64], node_id: &[u32], n: usize, node_score: &mut [f64])
    requires { (n ≤ length node_id.now) × (n ≤ length node_score.old) }
    ensures { scores_is node_score ≡ filled_scores (scores_was score) (take n (was node_id)) (scores_had node_score) }
{
    node_score.fill(0.0);
    for k in 0..n {
        node_score[k] = score_of(score, node_id[k]);
    }
}
