// The build of a pack in which nothing is wrong.
ghost use Rattle.std.specs.Prelude.{◌≡◌, ◌≤◌, length, Ok};
ghost use Rattle.doubles.specs.Units.{scores_is, scores_was, scores_had};
ghost use Rattle.build.specs.Memory.{scored_memory_is, scored_memory_was};
ghost use Rattle.pack.specs.Build.{reported, report_of, nodes_of, PackBuilt};
ghost use Rattle.pack.specs.Reading.{PackFine, ScoresLeft};
ghost use Rattle.refusal.specs.Lent.{was};

use crate::Summary;
use crate::header::Header;
use refusal::{Fault, Reason};
use rows::Kind;

// The score column of a trie of n nodes: a Unigram trie's scores in front, and zeros behind them; a WordPiece trie has none.
fn fill_scores(
    kind: Kind,
    h: Header,
    bytes: &[u8],
    node_id: &[u32],
    n: usize,
    node_score: &mut [f64],
)
    requires { PackFine bytes.now kind h × ((n ≤ length node_id.now) × (n ≤ length node_score.old)) }
    ensures { ScoresLeft (was bytes) kind (was node_id) n (scores_had node_score) (scores_is node_score) }
{
    match kind {
        Kind::Unigram => crate::scores::fill(bytes, h.rows as usize, node_id, n, node_score),
        Kind::WordPiece => node_score.fill(0.0),
    }
}

// What is answered of a trie of n nodes.
fn reported(kind: Kind, h: Header, bytes: &[u8], n: u32) -> Summary
    requires { PackFine bytes.now kind h }
    ensures { n ≡ nodes_of kind (was bytes) → reported result ≡ report_of kind (was bytes) }
{
    match kind {
        Kind::Unigram => Summary::Unigram {
            nodes: n,
            unknown: h.unknown,
            unknown_score: crate::scores::unknown_score(bytes, h.rows as usize),
        },
        Kind::WordPiece => Summary::WordPiece {
            nodes: n,
            unknown: h.unknown,
            max_chars: h.max_chars,
            prefix_off: h.prefix_off,
            prefix_len: h.prefix_len,
        },
    }
}

// The trie of the pack's rows in the lent columns; or no room for it.
pub fn build_fine(
    kind: Kind,
    h: Header,
    bytes: &[u8],
    edge_at: &mut [u32],
    edge_n: &mut [u16],
    node_id: &mut [u32],
    node_score: &mut [f64],
    byte: &mut [u8],
    to: &mut [u32],
    work: &mut [u32],
) -> Result<Summary, Reason>
    requires { PackFine bytes.now kind h }
    ensures { PackBuilt (was bytes) (scored_memory_was edge_at edge_n node_id node_score byte to work) result
        (scored_memory_is edge_at edge_n node_id node_score byte to work) }
{
    let room = scored::checked::room(edge_at, edge_n, node_id, node_score, byte, to, work);
    let start = h.strings_off as usize;
    let built = crate::enter::build_rows(
        kind,
        bytes,
        &bytes[start..],
        h.rows as usize,
        edge_at,
        edge_n,
        node_id,
        byte,
        to,
        work,
        room,
    );
    match built {
        None => {
            node_score.fill(0.0);
            Err(Reason::Call(Fault::Room))
        }
        Some(n) => {
            fill_scores(kind, h, bytes, node_id, n, node_score);
            Ok(reported(kind, h, bytes, n as u32))
        }
    }
}
