// A row list as it is lent: a column for each part of a row, judged as a whole.
ghost use Rattle.std.specs.Prelude.{◌≡◌};
ghost use Rattle.std.specs.Result.{result_err};
ghost use Rattle.rows.specs.Columns.{too_large, level, columns_fault};
ghost use Rattle.rows.specs.Answers.{columns_in};
ghost use Rattle.refusal.specs.Lent.{was};

use crate::{Kind, checked};
use refusal::{Fault, MAX_ROWS, MAX_TABLE, Reason};

// The lent lists of one row set, a place in each for each row. `scored` says which kind of worth the row has: its score counts
// where it is true, else its id.
#[derive(Clone, Copy)]
pub struct Lists<'a> {
    pub off: &'a [u32],
    pub len: &'a [u32],
    pub scored: &'a [bool],
    pub score: &'a [f64],
    pub id: &'a [u32],
}

impl<'a> Lists<'a> {
    // Whether the lists have one length.
    #[tactic(auto, unfolding(crate::specs::Columns::level))]
    fn is_level(&self) -> bool
        ensures { result ≡ level (columns_in self.now) }
    {
        let n = self.off.len();
        self.len.len() == n && self.scored.len() == n && self.score.len() == n && self.id.len() == n
    }
}

// Whether there are more rows, or more bytes of string table, than a list may have.
pub fn is_large(rows: usize, table: usize) -> bool
    ensures { result ≡ too_large rows table }
{
    MAX_ROWS < rows || MAX_TABLE < table
}

// Whether every row is fine. Refused with 1 for too many rows, too large a table or lists of unequal length; then the first bad
// row decides.
pub fn judge(kind: Kind, tab: &[u8], lists: &Lists) -> Result<(), Reason>
    ensures { result_err result ≡ columns_fault kind (was tab) (columns_in lists.now) }
{
    if is_large(lists.off.len(), tab.len()) || !lists.is_level() {
        return Err(Reason::Call(Fault::Size));
    }
    checked::first_bad(kind, tab, lists)
}
