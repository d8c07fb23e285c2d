// The coding of one text, for layers above that have tested the parts once for many texts.
ghost use Rattle.std.specs.Prelude.{◌≡◌};
ghost use Rattle.unigram.specs.Checked.{scratch_is, scratch_was};
ghost use Rattle.coder.specs.Vocabulary.{sound_in, CodedIn};
ghost use Rattle.coder.specs.Columns.{vocabulary};
ghost use Rattle.refusal.specs.Lent.{was};

use crate::Coder;
use refusal::Fault;

// The ids of a text by `unigram::segment`, or of a word by `wordpiece::encode`. `sound` is what was found of the parts.
// WordPiece writes ids alone, and looks at no other place of the scratch.
pub fn code(
    coder: &Coder,
    sound: bool,
    text: &[u8],
    start: &mut [u32],
    slot_id: &mut [u32],
    slot_score: &mut [f64],
    path: &mut [u32],
    ids: &mut [u32],
) -> Result<usize, Fault>
    requires { sound ≡ sound_in (vocabulary coder.now) }
    ensures { CodedIn (vocabulary coder.now) (was text) (scratch_was start slot_id slot_score path ids) result
        (scratch_is start slot_id slot_score path ids) }
{
    match coder {
        Coder::Unigram(m) => unigram::checked::segment_tested(
            m, sound, text, start, slot_id, slot_score, path, ids,
        ),
        Coder::WordPiece(v) => wordpiece::checked::encode_tested(v, sound, text, ids),
    }
}
