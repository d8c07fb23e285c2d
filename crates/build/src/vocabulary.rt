// The rows entered in order. Unigram keeps a token's first row and gives it the row's index, WordPiece its last and the id that
// the row has.
ghost use Rattle.std.specs.Prelude.{◌≡◌, ◌<◌, length, get_or};
ghost use Rattle.refusal.specs.Sizes.{max_rows};
ghost use Rattle.text.specs.Span.{span_of};
ghost use Rattle.rows.specs.declared.Kind.TheVariants.{WordPiece};
ghost use Rattle.build.specs.Names.{names};
ghost use Rattle.build.specs.Rules.{tokens_of};
ghost use Rattle.build.specs.Given.{given, value_of, rules_from, no_rule};
ghost use Rattle.build.specs.Held.{RowEntered, RowDone, LevelRows, Enterable, Roomy};
ghost use Rattle.refusal.specs.Lent.{was};

use crate::steps::start;
use crate::tokens::enter_token;
use rows::Kind;

// The id of row i.
fn value(kind: Kind, ids: &[u32], i: usize) -> u32
    requires { (i < max_rows) × (kind ≡ WordPiece → i < length ids.now) }
    ensures { result ≡ value_of kind i (get_or (was ids) i 0) }
{
    match kind {
        Kind::Unigram => i as u32,
        Kind::WordPiece => ids[i],
    }
}

// Row i: how many nodes there are then, None where no room is left.
fn enter_row(
    kind: Kind,
    tab: &[u8],
    off: &[u32],
    len: &[u32],
    ids: &[u32],
    i: usize,
    edge_n: &mut [u16],
    id: &mut [u32],
    work: &mut [u32],
    room: usize,
    n: usize,
) -> Option<usize>
    requires { LevelRows kind tab.now off.now len.now ids.now × (i < length off.now) ×
        Enterable edge_n.old id.old work.old room 0 n }
    ensures { RowEntered edge_n.old id.old work.old edge_n.new id.new work.new kind room n
        (span_of (was tab) (get_or (was off) i 0) (get_or (was len) i 0)) (value_of kind i (get_or (was ids) i 0)) result }
{
    let v = value(kind, ids, i);
    let token = text::checked::span(tab, off[i], len[i]);
    enter_token(token, kind, v, edge_n, id, work, room, n)
}

// All rows, from the root on, in columns that may hold anything: how many nodes there are, None where no room is left. The root
// needs room too.
pub fn enter_rows(
    kind: Kind,
    tab: &[u8],
    off: &[u32],
    len: &[u32],
    ids: &[u32],
    edge_n: &mut [u16],
    id: &mut [u32],
    work: &mut [u32],
    room: usize,
) -> Option<usize>
    requires { LevelRows kind tab.now off.now len.now ids.now × Roomy room edge_n.old id.old work.old }
    ensures { RowDone (names (tokens_of (was tab) (given (was off) (was len) (was ids)))) (rules_from kind (was tab) no_rule 0
        (given (was off) (was len) (was ids))) room edge_n.new id.new work.new result }
{
    let mut n = start(edge_n, id, work, room)?;
    for i in 0..off.len() {
        n = enter_row(kind, tab, off, len, ids, i, edge_n, id, work, room, n)?;
    }
    Some(n)
}
