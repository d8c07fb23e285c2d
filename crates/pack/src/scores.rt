// The scores of a pack: the unknown score, and the score column. For a caller that has judged the rows.
ghost use Rattle.std.specs.Prelude.{◌≡◌, ◌-◌, ◌≤◌, ◌<◌, length, get_or, take};
ghost use Rattle.doubles.specs.Double.{plus_zero};
ghost use Rattle.doubles.specs.Units.{units, scores_is, scores_was, scores_had};
ghost use Rattle.rows.specs.declared.Kind.TheVariants.{Unigram};
ghost use Rattle.rows.specs.Scores.{lowest, lowest_of, unknown_score};
ghost use Rattle.build.specs.Rules.{scores_of};
ghost use Rattle.scored.specs.NodeScores.{filled_scores};
ghost use Rattle.pack.specs.Pack.{rows_from};
ghost use Rattle.pack.specs.Reading.{double_at, FiniteRows};
ghost use Rattle.refusal.specs.Lent.{was};

use crate::header::{HEADER, ROW};
use crate::row::score_at;

// The score of row i.
fn score_in(bytes: &[u8], rows: usize, i: usize) -> f64
    requires { FiniteRows bytes.now rows × (i < rows) }
    ensures { units result ≡ get_or (scores_of (rows_from Unigram (was bytes) 36 rows)) i plus_zero }
{
    score_at(bytes, HEADER + ROW * i + 8)
}

// The lowest score of the rows, of which there are some.
fn lowest(bytes: &[u8], rows: usize) -> f64
    requires { FiniteRows bytes.now rows × (0 < rows) }
    ensures { units result ≡ lowest (double_at (was bytes) 44) (scores_of (rows_from Unigram (was bytes) 52 (rows - 1))) }
{
    let mut low = score_at(bytes, HEADER + 8);
    for i in 1..rows {
        low = doubles::lower(low, score_at(bytes, HEADER + ROW * i + 8));
    }
    low
}

// The lowest score of all rows; 0 where there are none.
fn lowest_of(bytes: &[u8], rows: usize) -> f64
    requires { FiniteRows bytes.now rows }
    ensures { units result ≡ lowest_of (scores_of (rows_from Unigram (was bytes) 36 rows)) }
{
    if rows == 0 {
        return 0.0;
    }
    lowest(bytes, rows)
}

// The lowest score of all rows minus 10, rounded once; -10 where there are none.
pub fn unknown_score(bytes: &[u8], rows: usize) -> f64
    requires { FiniteRows bytes.now rows }
    ensures { units result ≡ unknown_score (scores_of (rows_from Unigram (was bytes) 36 rows)) }
{
    doubles::minus_ten(lowest_of(bytes, rows))
}

// The score of a row. The mark for no row is above every row, and has the score 0.
fn score_of(bytes: &[u8], rows: usize, row: u32) -> f64
    requires { FiniteRows bytes.now rows }
    ensures { units result ≡ get_or (scores_of (rows_from Unigram (was bytes) 36 rows)) row plus_zero }
{
    if (row as usize) < rows {
        return score_in(bytes, rows, row as usize);
    }
    0.0
}

// The first n places are given the scores of the first n nodes, whose rows are given; the others are zero.
pub fn fill(bytes: &[u8], rows: usize, node_id: &[u32], n: usize, node_score: &mut [f64])
    requires { FiniteRows bytes.now rows × ((n ≤ length node_id.now) × (n ≤ length node_score.old)) }
    ensures { scores_is node_score ≡ filled_scores (scores_of (rows_from Unigram (was bytes) 36 rows))
        (take n (was node_id)) (scores_had node_score) }
{
    node_score.fill(0.0);
    for k in 0..n {
        node_score[k] = score_of(bytes, rows, node_id[k]);
    }
}
