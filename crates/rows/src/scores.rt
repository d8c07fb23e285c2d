// The unknown score of a row list, from its column of scores.
ghost use Rattle.std.specs.Prelude.{◌≡◌};
ghost use Rattle.doubles.specs.Units.{units, scores_was};
ghost use Rattle.rows.specs.Scores.{lowest, lowest_of, unknown_score};

// The lowest of x and the scores.
fn lowest(x: f64, score: &[f64]) -> f64
    ensures { units result ≡ lowest (units x) (scores_was score) }
{
    let mut low = x;
    for y in score {
        low = doubles::lower(low, *y);
    }
    low
}

// The lowest of all scores; 0 where there are none.
fn lowest_of(score: &[f64]) -> f64
    ensures { units result ≡ lowest_of (scores_was score) }
{
    if score.len() == 0 {
        return 0.0;
    }
    lowest(score[0], &score[1..])
}

// The lowest score of all rows minus 10, rounded once; -10 where there are none.
pub fn unknown_score(score: &[f64]) -> f64
    ensures { units result ≡ unknown_score (scores_was score) }
{
    doubles::minus_ten(lowest_of(score))
}
