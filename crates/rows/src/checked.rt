// For callers that have tested their lists: what stands here asks for lists of one length.
ghost use Rattle.std.specs.Prelude.{◌≡◌, ◌<◌, ◌≤◌, true, length};
ghost use Rattle.std.specs.Result.{result_err};
ghost use Rattle.refusal.specs.Sizes.{max_rows};
ghost use Rattle.rows.specs.Rows.{worth_is, row_is, first_bad};
ghost use Rattle.rows.specs.Columns.{row_at, rows_of, level};
ghost use Rattle.rows.specs.Answers.{columns_in};
ghost use Rattle.refusal.specs.Lent.{was};

use crate::columns::Lists;
use crate::{Kind, Row, Worth};
use refusal::Reason;

// What the row at i gives its token: its score where it has one for its worth, else its id.
fn worth_at(lists: &Lists, i: usize) -> Worth
    requires level { level (columns_in lists.now) ≡ true }
    requires i_in_bounds { i < length lists.now.off.now }
    ensures { worth_is result ≡ (row_at (columns_in lists.now) i).worth }
{
    if lists.scored[i] {
        return Worth::Score(lists.score[i]);
    }
    Worth::Id(lists.id[i])
}

// The row at i, of lists of one length.
pub fn row_at(lists: &Lists, i: usize) -> Row
    requires level { level (columns_in lists.now) ≡ true }
    requires i_in_bounds { i < length lists.now.off.now }
    ensures { row_is result ≡ row_at (columns_in lists.now) i }
{
    Row {
        off: lists.off[i],
        len: lists.len[i],
        worth: worth_at(lists, i),
    }
}

// The first bad row of lists of one length, few enough that a row's number fits a u32.
pub fn first_bad(kind: Kind, tab: &[u8], lists: &Lists) -> Result<(), Reason>
    requires level { level (columns_in lists.now) ≡ true }
    requires off_len_bound { length lists.now.off.now ≤ max_rows }
    ensures { result_err result ≡ first_bad kind (was tab) 0 (rows_of (columns_in lists.now)) }
{
    for i in 0..lists.off.len() {
        let row = row_at(lists, i);
        if let Err(f) = crate::row_fault(kind, tab, row) {
            return Err(Reason::Row(f, i as u32));
        }
    }
    Ok(())
}
