// The pack file: a vocabulary's header, rows and strings, and the build from it.
#![tactic(auto)]

use refusal::Reason;

mod checked;
mod enter;
pub mod header;
mod judge;
mod row;
mod scores;

ghost use Rattle.build.specs.Memory.{scored_memory_is, scored_memory_was};
ghost use Rattle.pack.specs.Build.{PackBuilt};
ghost use Rattle.refusal.specs.Lent.{was};

// What an accepted build reports: the kind with what `segment` or `encode` is to be given. The prefix is the `prefix_len` bytes
// of the strings from `prefix_off` on.
#[derive(Clone, Copy)]
pub enum Summary {
    Unigram {
        nodes: u32,
        unknown: u32,
        unknown_score: f64,
    },
    WordPiece {
        nodes: u32,
        unknown: u32,
        max_chars: u32,
        prefix_off: u32,
        prefix_len: u32,
    },
}

// The trie of a pack's rows, in the lent columns. Refused are a wrong header or layout, sizes above their limits, the first bad
// row, a prefix that is not text in the strings, and then too few lent places. A refusal of the pack writes nothing; a refusal
// of the places leaves every lent place zero. After a build the work places and the places past the trie are zero, and so are
// all score places of a WordPiece trie.
pub fn build(
    bytes: &[u8],
    edge_at: &mut [u32],
    edge_n: &mut [u16],
    node_id: &mut [u32],
    node_score: &mut [f64],
    byte: &mut [u8],
    to: &mut [u32],
    work: &mut [u32],
) -> Result<Summary, Reason>
    ensures { PackBuilt (was bytes) (scored_memory_was edge_at edge_n node_id node_score byte to work) result
        (scored_memory_is edge_at edge_n node_id node_score byte to work) }
{
    let (kind, h) = judge::judge(bytes)?;
    checked::build_fine(
        kind, h, bytes, edge_at, edge_n, node_id, node_score, byte, to, work,
    )
}
