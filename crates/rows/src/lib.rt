// The rows of a vocabulary: a token's span in the string table and its worth, and which row is the first bad one.
#![tactic(auto)]

ghost use Rattle.std.specs.Result.{result_err};

use refusal::{Fault, MAX_TOKEN, NO_ID};

mod checked;
pub mod columns;
pub mod scores;

ghost use Rattle.std.specs.Prelude.{◌≡◌};
ghost use Rattle.rows.specs.Rows.{worth_is, row_is, worth_fault, row_fault};
ghost use Rattle.rows.specs.declared.Kind.TheVariants.{Unigram, WordPiece};
ghost use Rattle.refusal.specs.Lent.{was};

// Which of the two a vocabulary is for.
#[derive(Clone, Copy, PartialEq, Eq)]
pub enum Kind {
    Unigram,
    WordPiece,
}

// What a row gives its token: a score, or an id.
#[derive(Clone, Copy)]
pub enum Worth {
    Score(f64),
    Id(u32),
}

// A token is the `len` bytes of the string table from `off` on.
#[derive(Clone, Copy)]
pub struct Row {
    pub off: u32,
    pub len: u32,
    pub worth: Worth,
}

// A Unigram row's worth is a score, and finite.
fn score_fault(worth: Worth) -> Result<(), Fault>
    ensures { result_err result ≡ worth_fault Unigram (worth_is worth) }
{
    let Worth::Score(x) = worth else {
        return Err(Fault::Score);
    };
    if doubles::is_finite(x) {
        return Ok(());
    }
    Err(Fault::Score)
}

// A WordPiece row's worth is an id, and not the mark for none.
fn id_fault(worth: Worth) -> Result<(), Fault>
    ensures { result_err result ≡ worth_fault WordPiece (worth_is worth) }
{
    let Worth::Id(i) = worth else {
        return Err(Fault::Id);
    };
    if i == NO_ID {
        return Err(Fault::Id);
    }
    Ok(())
}

// One row's fault: its span, its length, its text, then its worth.
pub fn row_fault(kind: Kind, tab: &[u8], row: Row) -> Result<(), Fault>
    ensures { result_err result ≡ row_fault kind (was tab) (row_is row) }
{
    if text::is_outside(tab, row.off, row.len) {
        return Err(Fault::Span);
    }
    if MAX_TOKEN < row.len {
        return Err(Fault::Token);
    }
    let token = text::checked::span(tab, row.off, row.len);
    text::utf8::judge(token)?;
    match kind {
        Kind::Unigram => score_fault(row.worth),
        Kind::WordPiece => id_fault(row.worth),
    }
}
