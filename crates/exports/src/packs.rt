// A build from a pack, and all that the program prints. Answers of the build are numbers as in `builds`.
ghost use Rattle.std.specs.Prelude.{◌≡◌, Ok};
ghost use Rattle.doubles.specs.Units.{scores_is, scores_was, scores_had};
ghost use Rattle.build.specs.Memory.{scored_memory_is, scored_memory_was};
ghost use Rattle.pack.specs.Build.{told, reported, PackBuilt};
ghost use Rattle.exports.specs.Flat.{pack_number, pack_score, As, PrintedAs};
ghost use Rattle.refusal.specs.Lent.{was};

use crate::builds::{put_score, reason_number};
use pack::Summary;
use refusal::Reason;

// How many nodes a pack's trie has, and a Unigram pack's unknown score in the first of the lent places.
fn summary_number(s: Summary, unknown_score: &mut [f64]) -> u64
    ensures { (result ≡ pack_number (Ok (reported s)))
        × (scores_is unknown_score ≡ pack_score (Ok (reported s)) (scores_had unknown_score)) }
{
    match s {
        Summary::Unigram {
            nodes,
            unknown: _,
            unknown_score: x,
        } => {
            put_score(unknown_score, x);
            nodes as u64
        }
        Summary::WordPiece {
            nodes,
            unknown: _,
            max_chars: _,
            prefix_off: _,
            prefix_len: _,
        } => nodes as u64,
    }
}

// An answer of the build as one number, and its unknown score in the first of the lent places.
fn pack_number(a: Result<Summary, Reason>, unknown_score: &mut [f64]) -> u64
    ensures { (result ≡ pack_number (told a)) × (scores_is unknown_score ≡ pack_score (told a) (scores_had unknown_score)) }
{
    match a {
        Ok(s) => summary_number(s, unknown_score),
        Err(r) => reason_number(r),
    }
}

// The trie of a pack, in the lent columns; a Unigram pack's unknown score is in the first place lent for it. Kind, unknown id,
// max_chars and the prefix's span are the words 0, 5, 6, 7 and 8 of the header.
#[unsafe(no_mangle)]
pub extern "C" fn sk_pack_build(
    bytes: &[u8],
    edge_at: &mut [u32],
    edge_n: &mut [u16],
    node_id: &mut [u32],
    node_score: &mut [f64],
    byte: &mut [u8],
    to: &mut [u32],
    work: &mut [u32],
    unknown_score: &mut [f64],
) -> u64
    ensures { As (λ said. pack_number (told said)) (λ said. PackBuilt (was bytes)
        (scored_memory_was edge_at edge_n node_id node_score byte to work) said
        (scored_memory_is edge_at edge_n node_id node_score byte to work)
        × (scores_is unknown_score ≡ pack_score (told said) (scores_had unknown_score))) result }
{
    pack_number(
        pack::build(bytes, edge_at, edge_n, node_id, node_score, byte, to, work),
        unknown_score,
    )
}

// All that the program prints for a pack and an input, from the front of the buffer; past it the buffer is unchanged. Answers
// how many bytes; or 2^32, and nothing is written, where the buffer has fewer than 360,459, which are enough for any output.
#[unsafe(no_mangle)]
pub extern "C" fn sk_print(pack: &[u8], input: &[u8], out: &mut [u8]) -> usize
    ensures { PrintedAs (was pack) (was input) out.old result out.new }
{
    if out.len() < output::MAX_OUTPUT {
        return 4_294_967_296;
    }
    output::print(pack, input, out)
}
