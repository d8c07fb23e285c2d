// One row of the pack, decoded, and the first bad row.
ghost use Rattle.std.specs.Result.{result_err};
ghost use Rattle.std.specs.Prelude.{◌≡◌, false, ◌+◌, ◌≤◌, length};
ghost use Rattle.doubles.specs.Double.{infinite};
ghost use Rattle.doubles.specs.Units.{units};
ghost use Rattle.refusal.specs.Sizes.{max_rows};
ghost use Rattle.rows.specs.Rows.{worth_is, row_is, first_bad};
ghost use Rattle.pack.specs.Pack.{worth_at, row_at, rows_from};
ghost use Rattle.pack.specs.Reading.{double_at, ScoreRead, WorthRead, RowRead, row_start};
ghost use Rattle.refusal.specs.Lent.{was};

use crate::header::{HEADER, ROW, word};
use doubles::Pattern;
use refusal::Reason;
use rows::{Kind, Row, Worth};

// The pattern of the positive infinity.
const INFINITE: u64 = 9_218_868_437_227_405_312;

fn infinity() -> f64
    ensures { units result ≡ infinite false }
{
    f64::from_bits(INFINITE)
}

// The score whose pattern stands at byte `at`. A NaN has many patterns and no f64, so whatever is not finite is read as an
// infinity: its fault is the same.
pub fn score_at(bytes: &[u8], at: usize) -> f64
    requires { at + 8 ≤ length bytes.now }
    ensures { ScoreRead (units result) (double_at (was bytes) at) }
{
    let low = word(bytes, at) as u64;
    let high = word(bytes, at + 4) as u64;
    let pattern = doubles::from_bits(low + 4_294_967_296 * high);
    match pattern {
        Pattern::Finite(x) => x,
        Pattern::Infinite(_) | Pattern::NotANumber => infinity(),
    }
}

// The worth at byte `at`: a score or an id.
fn worth_at(kind: Kind, bytes: &[u8], at: usize) -> Worth
    requires { at + 8 ≤ length bytes.now }
    ensures { WorthRead kind (worth_is result) (worth_at kind (was bytes) at) }
{
    match kind {
        Kind::Unigram => Worth::Score(score_at(bytes, at)),
        Kind::WordPiece => Worth::Id(word(bytes, at)),
    }
}

// The row at byte `at`.
pub fn row_at(kind: Kind, bytes: &[u8], at: usize) -> Row
    requires { at + 16 ≤ length bytes.now }
    ensures { RowRead kind (row_is result) (row_at kind (was bytes) at) }
{
    Row {
        off: word(bytes, at),
        len: word(bytes, at + 4),
        worth: worth_at(kind, bytes, at + 8),
    }
}

// The first bad one of the rows.
pub fn first_bad(kind: Kind, bytes: &[u8], strings: &[u8], rows: usize) -> Result<(), Reason>
    requires { (row_start rows ≤ length bytes.now) × (rows ≤ max_rows) }
    ensures { result_err result ≡ first_bad kind (was strings) 0 (rows_from kind (was bytes) 36 rows) }
{
    for i in 0..rows {
        let row = row_at(kind, bytes, HEADER + ROW * i);
        if let Err(f) = rows::row_fault(kind, strings, row) {
            return Err(Reason::Row(f, i as u32));
        }
    }
    Ok(())
}
