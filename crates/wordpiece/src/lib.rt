// WordPiece: `from_rows`, a trie from rows; `encode`, the longest token first.
#![tactic(auto)]

use refusal::{Fault, Reason};
use rows::Kind;
use rows::columns::Lists;
use trie::Parts;

pub mod checked;

ghost use Rattle.trie.specs.Trie.{parts};
ghost use Rattle.rows.specs.Answers.{columns_in};
ghost use Rattle.build.specs.Memory.{memory_is, memory_was};
ghost use Rattle.wordpiece.specs.Build as promise;
ghost use Rattle.wordpiece.specs.Encode.{Encoded};
ghost use Rattle.refusal.specs.Lent.{was};

// A WordPiece trie's parts, with what its words are coded with: the unknown id, the most characters of a word, and the prefix
// of a piece that is not the first.
#[derive(Clone, Copy)]
pub struct VocabTrie<'a> {
    pub trie: Parts<'a>,
    pub unknown: u32,
    pub max_chars: u32,
    pub prefix: &'a [u8],
}

// The trie of the rows, in the lent columns. Refused are sizes above their limits or lists of unequal length, then the first
// bad row, and then too few lent places. A refusal of the rows writes nothing; a refusal of the places leaves every lent place
// zero. After a build the work places and the places past the trie are zero.
pub fn from_rows(
    tab: &[u8],
    lists: &Lists,
    edge_at: &mut [u32],
    edge_n: &mut [u16],
    node_id: &mut [u32],
    byte: &mut [u8],
    to: &mut [u32],
    work: &mut [u32],
) -> Result<u32, Reason>
    ensures { promise.Built (was tab) (columns_in lists.now)
        (memory_was edge_at edge_n node_id byte to work) result (memory_is edge_at edge_n node_id byte to work) }
{
    rows::columns::judge(Kind::WordPiece, tab, lists)?;
    let room = build::checked::room(edge_at, edge_n, node_id, byte, to, work);
    let built = build::checked::build(
        Kind::WordPiece,
        tab,
        lists.off,
        lists.len,
        lists.id,
        edge_at,
        edge_n,
        node_id,
        byte,
        to,
        work,
        room,
    );
    match built {
        Some(n) => Ok(n as u32),
        None => Err(Reason::Call(Fault::Room)),
    }
}

// The ids of a word, in the first of the lent places. Refused are a word or prefix above its limit, parts that are not sound,
// an ill-formed word, an ill-formed prefix, and fewer id places than characters. Places past the answer stay as they are, and a
// refused call writes nothing.
pub fn encode(v: &VocabTrie, word: &[u8], ids: &mut [u32]) -> Result<usize, Fault>
    ensures { Encoded (parts v.now.trie) v.now.unknown v.now.max_chars v.now.prefix.now (was word) ids.old result ids.new }
{
    let sound = trie::soundness::sound(&v.trie);
    checked::encode_tested(v, sound, word, ids)
}
