// The calls for other languages. A slice passes as a pointer and a length, an answer as numbers. A caller outside Rattle is
// checked by nothing: it passes what the parameters' types say.
#![tactic(auto)]

use refusal::{Fault, MAX_TEXT};
use trie::Parts;
use unigram::Model;
use wordpiece::VocabTrie;

pub mod builds;
pub mod packs;

ghost use Rattle.std.specs.Prelude.{◌≡◌, [], true, ◌+◌, ◌^◌, length, None, Ok};
ghost use Rattle.doubles.specs.Units.{units, scores_was};
ghost use Rattle.refusal.specs.Refusal.{number, unless_fault};
ghost use Rattle.text.specs.Text.{length_of, valid_up_to, boundary, characters};
ghost use Rattle.text.specs.Span.{span_fault, span_of};
ghost use Rattle.trie.specs.Trie.{id_of};
ghost use Rattle.trie.specs.Sound.{sound, sound_scored};
ghost use Rattle.trie.specs.Lookup.{lookup_fault, lookup_answer};
ghost use Rattle.unigram.specs.Checked.{scratch_is, scratch_now, scratch_was};
ghost use Rattle.unigram.specs.Segment.{lengths_of, segment_fault, sound_model, Segmented};
ghost use Rattle.wordpiece.specs.Pieces.{ids_of};
ghost use Rattle.wordpiece.specs.Checked.{Encodable};
ghost use Rattle.refusal.specs.Places.{overlay};
ghost use Rattle.wordpiece.specs.Encode.{Encoded};
ghost use Rattle.exports.specs.Flat.{parts_was, parts_now, model_was, model_now};
ghost use Rattle.exports.specs.Flat.{status, count_fault, count_number, lookup_number, code_number, As};
ghost use Rattle.refusal.specs.Lent.{was};

// The length of the longest prefix made of whole well-formed characters.
#[unsafe(no_mangle)]
pub extern "C" fn sk_valid_up_to(s: &[u8]) -> usize
    ensures { result ≡ valid_up_to (was s) }
{
    text::utf8::valid_up_to(s)
}

// How many bytes the character has that this byte begins; 0 where it begins none.
#[unsafe(no_mangle)]
pub extern "C" fn sk_char_len(b: u8) -> usize
    ensures { result ≡ length_of b }
{
    text::lead::char_len(b)
}

// Whether a character begins at i, or the text ends there.
#[unsafe(no_mangle)]
pub extern "C" fn sk_is_boundary(s: &[u8], i: usize) -> bool
    ensures { result ≡ boundary (was s) i }
{
    text::utf8::is_boundary(s, i)
}

// A refusal as one number.
fn refused(f: Fault) -> usize
    ensures { result ≡ 2 ^ 32 + number f }
{
    4_294_967_296 + f.number() as usize
}

// How many characters a text has, or 2^32 and 1 or 4: what is no text is not taken for an empty one.
#[unsafe(no_mangle)]
pub extern "C" fn sk_characters(s: &[u8]) -> usize
    ensures { result ≡ count_number (count_fault (was s)) (characters (was s)) }
{
    if MAX_TEXT < s.len() {
        return refused(Fault::Size);
    }
    if let Err(f) = text::utf8::judge(s) {
        return refused(f);
    }
    text::checked::characters(s)
}

// Whether a span of the table is text: 0, or 1, 2 or 4.
#[unsafe(no_mangle)]
pub extern "C" fn sk_text(tab: &[u8], off: u32, len: u32) -> u32
    ensures { result ≡ status (span_fault (was tab) off len) }
{
    match text::text_answer(tab, off, len) {
        Ok(()) => 0,
        Err(f) => f.number(),
    }
}

// How long the part is that the span check gives back: 0 for a refused span.
#[unsafe(no_mangle)]
pub extern "C" fn sk_text_len(tab: &[u8], off: u32, len: u32) -> usize
    ensures { result ≡ length (unless_fault (span_fault (was tab) off len) (span_of (was tab) off len) []) }
{
    text::text(tab, off, len).len()
}

// Whether the parts of a WordPiece trie are sound.
#[unsafe(no_mangle)]
pub extern "C" fn sk_sound(
    edge_at: &[u32],
    edge_n: &[u16],
    id: &[u32],
    byte: &[u8],
    to: &[u32],
) -> bool
    ensures { result ≡ sound (parts_was edge_at edge_n id byte to) }
{
    let trie = Parts {
        edge_at,
        edge_n,
        id,
        byte,
        to,
    };
    trie::soundness::sound(&trie)
}

// Whether the parts of a Unigram trie and its unknown score are sound.
#[unsafe(no_mangle)]
pub extern "C" fn sk_sound_scored(
    edge_at: &[u32],
    edge_n: &[u16],
    id: &[u32],
    score: &[f64],
    byte: &[u8],
    to: &[u32],
    unknown_score: f64,
) -> bool
    ensures { result ≡ sound_scored (parts_was edge_at edge_n id byte to) (scores_was score) (units unknown_score) }
{
    let trie = Parts {
        edge_at,
        edge_n,
        id,
        byte,
        to,
    };
    trie::soundness::sound_scored(&trie, score, unknown_score)
}

// A look-up as one number.
fn lookup_number(a: Result<Option<u32>, Fault>) -> u64
    ensures { result ≡ lookup_number a }
{
    match a {
        Ok(Some(i)) => i as u64,
        Ok(None) => 4_294_967_296,
        Err(f) => 4_294_967_296 + f.number() as u64,
    }
}

// The id of a text in a Unigram trie: the id, 2^32 for none, or 2^32 and 1, 8 or 4.
#[unsafe(no_mangle)]
pub extern "C" fn sk_exact(
    edge_at: &[u32],
    edge_n: &[u16],
    id: &[u32],
    score: &[f64],
    byte: &[u8],
    to: &[u32],
    unknown_score: f64,
    s: &[u8],
) -> u64
    ensures { let t = parts_was edge_at edge_n id byte to in result ≡ lookup_number (lookup_answer (lookup_fault
        (sound_scored t (scores_was score) (units unknown_score)) (was s)) (id_of t (was s))) }
{
    let trie = Parts {
        edge_at,
        edge_n,
        id,
        byte,
        to,
    };
    lookup_number(trie::exact(&trie, score, unknown_score, s))
}

// The same in a WordPiece trie.
#[unsafe(no_mangle)]
pub extern "C" fn sk_exact_unscored(
    edge_at: &[u32],
    edge_n: &[u16],
    id: &[u32],
    byte: &[u8],
    to: &[u32],
    s: &[u8],
) -> u64
    ensures { let t = parts_was edge_at edge_n id byte to in result ≡ lookup_number
        (lookup_answer (lookup_fault (sound t) (was s)) (id_of t (was s))) }
{
    let trie = Parts {
        edge_at,
        edge_n,
        id,
        byte,
        to,
    };
    lookup_number(trie::exact_unscored(&trie, s))
}

// The same in parts of either kind, for a caller that has tested them and looks up many texts: the id, or 2^32 for none.
#[unsafe(no_mangle)]
pub extern "C" fn sk_exact_checked(
    edge_at: &[u32],
    edge_n: &[u16],
    id: &[u32],
    byte: &[u8],
    to: &[u32],
    s: &[u8],
) -> u64
    requires { sound (parts_now edge_at edge_n id byte to) ≡ true }
    ensures { result ≡ lookup_number (Ok (id_of (parts_was edge_at edge_n id byte to) (was s))) }
{
    let trie = Parts {
        edge_at,
        edge_n,
        id,
        byte,
        to,
    };
    lookup_number(Ok(trie::checked::exact(&trie, s)))
}

// An answer of `encode` or `segment` as one number.
fn code_number(a: Result<usize, Fault>) -> usize
    ensures { result ≡ code_number a }
{
    match a {
        Ok(n) => n,
        Err(f) => refused(f),
    }
}

// The ids of a word: how many, or 2^32 and 1, 8, 4 or 10.
#[unsafe(no_mangle)]
pub extern "C" fn sk_encode(
    edge_at: &[u32],
    edge_n: &[u16],
    id: &[u32],
    byte: &[u8],
    to: &[u32],
    unknown: u32,
    max_chars: u32,
    prefix: &[u8],
    word: &[u8],
    ids: &mut [u32],
) -> usize
    ensures { As code_number (λ said. Encoded (parts_was edge_at edge_n id byte to) unknown max_chars (was prefix) (was word)
        ids.old said ids.new) result }
{
    let v = VocabTrie {
        trie: Parts {
            edge_at,
            edge_n,
            id,
            byte,
            to,
        },
        unknown,
        max_chars,
        prefix,
    };
    code_number(wordpiece::encode(&v, word, ids))
}

// The same for a caller that has tested the parts, the word and the room, and calls it for many words.
#[unsafe(no_mangle)]
pub extern "C" fn sk_encode_checked(
    edge_at: &[u32],
    edge_n: &[u16],
    id: &[u32],
    byte: &[u8],
    to: &[u32],
    unknown: u32,
    max_chars: u32,
    prefix: &[u8],
    word: &[u8],
    ids: &mut [u32],
) -> usize
    requires { Encodable (parts_now edge_at edge_n id byte to) word.now ids.old }
    ensures { let all = ids_of (id_of (parts_was edge_at edge_n id byte to)) unknown max_chars (was prefix) (was word) in
        (result ≡ length all) × (ids.new ≡ overlay all ids.old) }
{
    let v = VocabTrie {
        trie: Parts {
            edge_at,
            edge_n,
            id,
            byte,
            to,
        },
        unknown,
        max_chars,
        prefix,
    };
    wordpiece::checked::encode(&v, word, ids)
}

// The ids of a text by its best cutting, its pieces' ends and its records: how many ids, or 2^32 and 1, 8, 4, 9 or 10.
#[unsafe(no_mangle)]
pub extern "C" fn sk_segment(
    edge_at: &[u32],
    edge_n: &[u16],
    id: &[u32],
    score: &[f64],
    byte: &[u8],
    to: &[u32],
    unknown: u32,
    unknown_score: f64,
    text: &[u8],
    start: &mut [u32],
    slot_id: &mut [u32],
    slot_score: &mut [f64],
    path: &mut [u32],
    ids: &mut [u32],
) -> usize
    ensures { As code_number (λ said. Segmented (model_was edge_at edge_n id score byte to unknown unknown_score) (was text)
        (scratch_was start slot_id slot_score path ids) said (scratch_is start slot_id slot_score path ids)) result }
{
    let m = Model {
        trie: Parts {
            edge_at,
            edge_n,
            id,
            byte,
            to,
        },
        score,
        unknown,
        unknown_score,
    };
    code_number(unigram::segment(&m, text, start, slot_id, slot_score, path, ids))
}

// The same for a caller that has tested the parts, the text and the places, and calls it for many texts.
#[unsafe(no_mangle)]
pub extern "C" fn sk_segment_checked(
    edge_at: &[u32],
    edge_n: &[u16],
    id: &[u32],
    score: &[f64],
    byte: &[u8],
    to: &[u32],
    unknown: u32,
    unknown_score: f64,
    text: &[u8],
    start: &mut [u32],
    slot_id: &mut [u32],
    slot_score: &mut [f64],
    path: &mut [u32],
    ids: &mut [u32],
) -> usize
    requires { segment_fault (sound_model (model_now edge_at edge_n id score byte to unknown unknown_score)) text.now
        (lengths_of (scratch_now start slot_id slot_score path ids)) ≡ None }
    ensures { Segmented (model_was edge_at edge_n id score byte to unknown unknown_score) (was text)
        (scratch_was start slot_id slot_score path ids) (Ok result) (scratch_is start slot_id slot_score path ids) }
{
    let m = Model {
        trie: Parts {
            edge_at,
            edge_n,
            id,
            byte,
            to,
        },
        score,
        unknown,
        unknown_score,
    };
    unigram::checked::segment(&m, text, start, slot_id, slot_score, path, ids)
}
