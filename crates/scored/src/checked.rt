// The build of fine rows, for a layer above that has found no fault in them.
ghost use Rattle.std.specs.Prelude.{◌≡◌, min, length, None};
ghost use Rattle.rows.specs.declared.Kind.TheVariants.{Unigram};
ghost use Rattle.rows.specs.Columns.{columns_fault};
ghost use Rattle.rows.specs.Answers.{scored_columns, scored_was};
ghost use Rattle.build.specs.Memory.{memory, scored_memory_is, scored_memory_was};
ghost use Rattle.build.specs.Checked.{room_of};
ghost use Rattle.scored.specs.Build as promise;
ghost use Rattle.refusal.specs.Lent.{was};

use crate::Summary;
use refusal::{Fault, Reason};
use rows::Kind;

// How many nodes the lent columns have room for, the score column too.
pub fn room(
    edge_at: &[u32],
    edge_n: &[u16],
    node_id: &[u32],
    node_score: &[f64],
    byte: &[u8],
    to: &[u32],
    work: &[u32],
) -> usize
    ensures { result ≡ min (room_of (memory (was edge_at) (was edge_n) (was node_id) (was byte) (was to) (was work)))
        (length (was node_score)) }
{
    let room = build::checked::room(edge_at, edge_n, node_id, byte, to, work);
    if node_score.len() < room {
        return node_score.len();
    }
    room
}

// The trie of rows with scores in which no fault was found, in the lent columns, the first row of a token giving the id and the
// score; or no room for it.
pub fn build_rows(
    tab: &[u8],
    off: &[u32],
    len: &[u32],
    score: &[f64],
    id: &[u32],
    edge_at: &mut [u32],
    edge_n: &mut [u16],
    node_id: &mut [u32],
    node_score: &mut [f64],
    byte: &mut [u8],
    to: &mut [u32],
    work: &mut [u32],
) -> Result<Summary, Reason>
    requires { columns_fault Unigram tab.now (scored_columns off.now len.now score.now id.now) ≡ None }
    ensures { promise.Built (was tab) (scored_was off len score id)
        (scored_memory_was edge_at edge_n node_id node_score byte to work) result
        (scored_memory_is edge_at edge_n node_id node_score byte to work) }
{
    let room = room(edge_at, edge_n, node_id, node_score, byte, to, work);
    let built = build::checked::build(
        Kind::Unigram,
        tab,
        off,
        len,
        id,
        edge_at,
        edge_n,
        node_id,
        byte,
        to,
        work,
        room,
    );
    match built {
        None => {
            node_score.fill(0.0);
            Err(Reason::Call(Fault::Room))
        }
        Some(n) => {
            crate::scores::fill(score, node_id, n, node_score);
            Ok(Summary {
                nodes: n as u32,
                unknown_score: rows::scores::unknown_score(score),
            })
        }
    }
}
