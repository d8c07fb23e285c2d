// A Unigram trie from a slice of rows: `build_rows`, over the build on columns.
#![tactic(auto)]

use refusal::Reason;
use rows::Row;
use scored::Summary;

mod slice;

ghost use Rattle.std.specs.Prelude.{map};
ghost use Rattle.rows.specs.Rows.{row_is};
ghost use Rattle.build.specs.Memory.{scored_memory_is, scored_memory_was};
ghost use Rattle.sliced.specs.BuildRows.{RowsBuilt, places_is, places_was};
ghost use Rattle.refusal.specs.Lent.{was};

// As `scored::build`, over a slice of rows, with columns lent that have a place for each row. Too few places in these are
// refused as other lent places are. They end as work places do: zero after a build and after too few lent places, and as they
// were after any other refusal.
pub fn build_rows(
    tab: &[u8],
    rows: &[Row],
    off: &mut [u32],
    len: &mut [u32],
    score: &mut [f64],
    edge_at: &mut [u32],
    edge_n: &mut [u16],
    node_id: &mut [u32],
    node_score: &mut [f64],
    byte: &mut [u8],
    to: &mut [u32],
    work: &mut [u32],
) -> Result<Summary, Reason>
    ensures { RowsBuilt (was tab) (map row_is (was rows)) (places_was off len score)
        (scored_memory_was edge_at edge_n node_id node_score byte to work) result (places_is off len score)
        (scored_memory_is edge_at edge_n node_id node_score byte to work) }
{
    slice::judge(tab, rows)?;
    let n = rows.len();
    if slice::is_short(n, off, len, score) {
        return slice::refuse_short(
            off, len, score, edge_at, edge_n, node_id, node_score, byte, to, work,
        );
    }
    slice::put(rows, off, len, score);
    let answer = slice::build_first(
        n, tab, off, len, score, edge_at, edge_n, node_id, node_score, byte, to, work,
    );
    slice::clear_rows(off, len, score);
    answer
}
