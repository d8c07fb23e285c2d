// A Unigram trie from rows: `build`.
#![tactic(auto)]

use refusal::Reason;
use rows::Kind;
use rows::columns::Lists;

pub mod checked;
pub mod scores;

ghost use Rattle.rows.specs.Answers.{columns_in};
ghost use Rattle.build.specs.Memory.{scored_memory_is, scored_memory_was};
ghost use Rattle.scored.specs.Build as promise;
ghost use Rattle.refusal.specs.Lent.{was};

// What an accepted build reports: how many nodes the trie has, and the score of an unknown character.
#[derive(Clone, Copy)]
pub struct Summary {
    pub nodes: u32,
    pub unknown_score: f64,
}

// The trie of the rows, in the lent columns. Refused are sizes above their limits or lists of unequal length, then the first
// bad row, and then too few lent places. A refusal of the rows writes nothing; a refusal of the places leaves every lent place
// zero. After a build the work places and the places past the trie are zero.
pub fn build(
    tab: &[u8],
    lists: &Lists,
    edge_at: &mut [u32],
    edge_n: &mut [u16],
    node_id: &mut [u32],
    node_score: &mut [f64],
    byte: &mut [u8],
    to: &mut [u32],
    work: &mut [u32],
) -> Result<Summary, Reason>
    ensures { promise.Built (was tab) (columns_in lists.now)
        (scored_memory_was edge_at edge_n node_id node_score byte to work) result
        (scored_memory_is edge_at edge_n node_id node_score byte to work) }
{
    rows::columns::judge(Kind::Unigram, tab, lists)?;
    checked::build_rows(
        tab,
        lists.off,
        lists.len,
        lists.score,
        lists.id,
        edge_at,
        edge_n,
        node_id,
        node_score,
        byte,
        to,
        work,
    )
}
