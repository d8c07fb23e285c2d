// What codes a text of either kind: one call, with one answer.
#![tactic(auto)]

use unigram::Model;
use wordpiece::VocabTrie;

pub mod checked;

ghost use Rattle.std.specs.Prelude.{◌≡◌};
ghost use Rattle.coder.specs.Vocabulary.{sound_in};
ghost use Rattle.coder.specs.Columns.{vocabulary};

// A vocabulary of either kind, as it is lent.
#[derive(Clone, Copy)]
pub enum Coder<'a> {
    Unigram(Model<'a>),
    WordPiece(VocabTrie<'a>),
}

// Whether the parts are sound for this kind: a WordPiece trie has no scores.
pub fn sound(coder: &Coder) -> bool
    ensures { result ≡ sound_in (vocabulary coder.now) }
{
    match coder {
        Coder::Unigram(m) => trie::soundness::sound_scored(&m.trie, m.score, m.unknown_score),
        Coder::WordPiece(v) => trie::soundness::sound(&v.trie),
    }
}
