// A row list that is lent as a slice of rows: judged as a whole, put into lent columns, and built there.
ghost use Rattle.std.specs.Result.{result_err};
ghost use Rattle.std.specs.Prelude.{◌≡◌, false, ◌≤◌, length, map, None};
ghost use Rattle.doubles.specs.Units.{units, scores_is, scores_had};
ghost use Rattle.refusal.specs.declared.Fault.TheVariants as fault;
ghost use Rattle.refusal.specs.declared.Reason.TheVariants as reason;
ghost use Rattle.rows.specs.Rows.{worth_is, row_is};
ghost use Rattle.rows.specs.declared.Kind.TheVariants.{Unigram};
ghost use Rattle.rows.specs.Columns.{columns_fault};
ghost use Rattle.build.specs.Rules.{score_of};
ghost use Rattle.build.specs.Memory.{cleared, zero_scores};
ghost use Rattle.build.specs.Memory.{memory_is, memory_was, scored_memory_is, scored_memory_was};
ghost use Rattle.scored.specs.Build as promise;
ghost use Rattle.sliced.specs.BuildRows.{row_places, zero_rows, short_of, rows_judged, places_is, places_was};
ghost use Rattle.sliced.specs.Copied.{columns_for, first_places};
ghost use Rattle.refusal.specs.Lent.{was};

use refusal::{Fault, Reason};
use rows::{Kind, Row, Worth};
use scored::{Summary, checked};

// Too many rows or too large a table; then the first bad row decides.
pub(crate) fn judge(tab: &[u8], rows: &[Row]) -> Result<(), Reason>
    ensures { result_err result ≡ rows_judged (was tab) (map row_is (was rows)) }
{
    if rows::columns::is_large(rows.len(), tab.len()) {
        return Err(Reason::Call(Fault::Size));
    }
    for (i, row) in rows.iter().enumerate() {
        rows::row_fault(Kind::Unigram, tab, *row).map_err(|f| Reason::Row(f, i as u32))?;
    }
    Ok(())
}

// Whether a column has fewer than n places.
pub(crate) fn is_short(n: usize, off: &[u32], len: &[u32], score: &[f64]) -> bool
    ensures { result ≡ short_of n (row_places (was off) (was len) (was score)) }
{
    off.len() < n || len.len() < n || score.len() < n
}

// The score of a row; 0 where its worth is none.
fn score_in(worth: Worth) -> f64
    ensures { units result ≡ score_of (worth_is worth) }
{
    match worth {
        Worth::Score(x) => x,
        Worth::Id(_) => 0.0,
    }
}

// Each row goes to its place in the columns.
pub(crate) fn put(rows: &[Row], off: &mut [u32], len: &mut [u32], score: &mut [f64])
    requires { (length rows.now ≤ length off.old) × (length rows.now ≤ length len.old) × (length rows.now ≤ length score.old) }
    ensures { first_places (length (was rows)) off.new len.new score.new ≡ columns_for (map row_is (was rows)) }
{
    for (i, row) in rows.iter().enumerate() {
        off[i] = row.off;
        len[i] = row.len;
        score[i] = score_in(row.worth);
    }
}

// Every place of the three columns zero.
pub(crate) fn clear_rows(off: &mut [u32], len: &mut [u32], score: &mut [f64])
    ensures { places_is off len score ≡ zero_rows (places_was off len score) }
{
    off.fill(0);
    len.fill(0);
    score.fill(0.0);
}

// The build of the rows in the first n places.
pub(crate) fn build_first(
    n: usize,
    tab: &[u8],
    off: &[u32],
    len: &[u32],
    score: &[f64],
    edge_at: &mut [u32],
    edge_n: &mut [u16],
    node_id: &mut [u32],
    node_score: &mut [f64],
    byte: &mut [u8],
    to: &mut [u32],
    work: &mut [u32],
) -> Result<Summary, Reason>
    requires roomy { (n ≤ length off.now) × (n ≤ length len.now) × (n ≤ length score.now) }
    requires fine { columns_fault Unigram tab.now (first_places n off.now len.now score.now) ≡ None }
    ensures { promise.Built (was tab) (first_places n (was off) (was len) (was score))
        (scored_memory_was edge_at edge_n node_id node_score byte to work) result
        (scored_memory_is edge_at edge_n node_id node_score byte to work) }
{
    let first = &off[..n];
    checked::build_rows(
        tab,
        first,
        &len[..n],
        &score[..n],
        first,
        edge_at,
        edge_n,
        node_id,
        node_score,
        byte,
        to,
        work,
    )
}

// Too little room for the rows: every lent place zero.
pub(crate) fn refuse_short(
    off: &mut [u32],
    len: &mut [u32],
    score: &mut [f64],
    edge_at: &mut [u32],
    edge_n: &mut [u16],
    node_id: &mut [u32],
    node_score: &mut [f64],
    byte: &mut [u8],
    to: &mut [u32],
    work: &mut [u32],
) -> Result<Summary, Reason>
    ensures { (result ≡ Err (reason.Call fault.Room)) ×
        (places_is off len score ≡ zero_rows (places_was off len score)) × (memory_is edge_at edge_n node_id byte to
        work ≡ cleared (memory_was edge_at edge_n node_id byte to work)) ×
        (scores_is node_score ≡ zero_scores (scores_had node_score)) }
{
    clear_rows(off, len, score);
    build::zero::clear(edge_at, edge_n, node_id, byte, to, work);
    node_score.fill(0.0);
    Err(Reason::Call(Fault::Room))
}
