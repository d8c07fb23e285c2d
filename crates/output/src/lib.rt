// What the program prints, as bytes in a lent buffer.
#![tactic(auto)]

use coder::Coder;
use pack::Summary;
use refusal::{Fault, Reason};
use trie::Parts;
use unigram::Model;
use wordpiece::VocabTrie;

mod coded;
mod lines;
mod put;

ghost use Rattle.std.specs.Prelude.{◌≡◌, ◌≤◌, length, Ok};
ghost use Rattle.trie.specs.Trie.{parts};
ghost use Rattle.coder.specs.Columns.{vocabulary};
ghost use Rattle.pack.specs.Pack.{header_of};
ghost use Rattle.output.specs.Output.{coded_line, lines_printed, output_of, output, max_output};
ghost use Rattle.output.specs.Put.{Put};
ghost use Rattle.output.specs.Cut.{PrefixGiven, Cuttable, first_nodes, LentBuilt};
ghost use Rattle.refusal.specs.Lent.{was};

// The largest pack and the most input, in bytes.
const MAX_PACK: usize = 65_536;

const MAX_INPUT: usize = 32_768;

// As many bytes as any output takes at most: 11 for each byte of input, and 11.
pub const MAX_OUTPUT: usize = 360_459;

// A pack's prefix: the part of its strings.
fn prefix_of<'a>(pack: &'a [u8], off: u32, len: u32) -> &'a [u8]
    requires { (36 ≤ length pack.now) × ((header_of pack.now).strings_off ≤ length pack.now) }
    ensures { PrefixGiven (was pack) off len result.now }
{
    let start = pack::header::word(pack, 12) as usize;
    let strings = &pack[start..];
    text::text(strings, off, len)
}

// The trie in the places for its nodes and their edges.
fn cut<'a>(lent: &Parts<'a>, nodes: u32) -> Parts<'a>
    requires { Cuttable nodes (parts lent.now) }
    ensures { parts result ≡ first_nodes nodes (parts lent.now) }
{
    let n = nodes as usize;
    Parts {
        edge_at: &lent.edge_at[..n],
        edge_n: &lent.edge_n[..n],
        id: &lent.id[..n],
        byte: &lent.byte[..n - 1],
        to: &lent.to[..n - 1],
    }
}

// What is printed for all lines in a vocabulary.
fn print_lines(coder: &Coder, input: &[u8], out: &mut [u8]) -> usize
    requires { max_output ≤ length out.old }
    ensures { Put out.old 0 (lines_printed (coded_line (vocabulary coder.now)) (was input)) result out.new }
{
    if MAX_INPUT < input.len() {
        return put::put_refusal(out, 0, b"input ", Fault::Size);
    }
    coded::put_lines(coder, input, out)
}

// What is printed for all lines in the vocabulary that was built, whose trie stands in the first places of the columns.
fn print_summary(
    summary: Summary,
    pack: &[u8],
    lent: &Parts,
    score: &[f64],
    input: &[u8],
    out: &mut [u8],
) -> usize
    requires { LentBuilt pack.now (Ok summary) (parts lent.now) score.now × (max_output ≤ length out.old) }
    ensures { Put out.old 0 (output_of (was pack) (was input)) result out.new }
{
    match summary {
        Summary::Unigram {
            nodes,
            unknown,
            unknown_score,
        } => {
            let coder = Coder::Unigram(Model {
                trie: cut(lent, nodes),
                score: &score[..nodes as usize],
                unknown,
                unknown_score,
            });
            print_lines(&coder, input, out)
        }
        Summary::WordPiece {
            nodes,
            unknown,
            max_chars,
            prefix_off,
            prefix_len,
        } => {
            let coder = Coder::WordPiece(VocabTrie {
                trie: cut(lent, nodes),
                unknown,
                max_chars,
                prefix: prefix_of(pack, prefix_off, prefix_len),
            });
            print_lines(&coder, input, out)
        }
    }
}

// What is printed once the pack is judged: its refusal, or the lines.
fn print_built(
    answer: Result<Summary, Reason>,
    pack: &[u8],
    lent: &Parts,
    score: &[f64],
    input: &[u8],
    out: &mut [u8],
) -> usize
    requires { LentBuilt pack.now answer (parts lent.now) score.now × (max_output ≤ length out.old) }
    ensures { Put out.old 0 (output_of (was pack) (was input)) result out.new }
{
    match answer {
        Ok(summary) => print_summary(summary, pack, lent, score, input, out),
        Err(r) => put::put_refusal(out, 0, b"pack ", r.fault()),
    }
}

// All that the program prints for a pack and an input, from the front of the buffer; past it the buffer is unchanged. Answers
// how many bytes. For callers that know that there is room for any output.
pub fn print(pack: &[u8], input: &[u8], out: &mut [u8]) -> usize
    requires { max_output ≤ length out.old }
    ensures { Put out.old 0 (output (was pack) (was input)) result out.new }
{
    if MAX_PACK < pack.len() {
        return put::put_refusal(out, 0, b"pack ", Fault::Size);
    }
    let mut edge_at = [0u32; 4096];
    let mut edge_n = [0u16; 4096];
    let mut id = [0u32; 4096];
    let mut score = [0.0; 4096];
    let mut byte = [0u8; 4096];
    let mut to = [0u32; 4096];
    let mut work = [0u32; 8192];
    let answer = pack::build(
        pack,
        &mut edge_at,
        &mut edge_n,
        &mut id,
        &mut score,
        &mut byte,
        &mut to,
        &mut work,
    );
    let lent = Parts {
        edge_at: &edge_at,
        edge_n: &edge_n,
        id: &id,
        byte: &byte,
        to: &to,
    };
    print_built(answer, pack, &lent, &score, input, out)
}
