// What the program prints for lines in a vocabulary of either kind.
ghost use Rattle.std.specs.Prelude.{◌≡◌, ◌+◌, ◌*◌, ◌≤◌, length};
ghost use mathlib.Core.List.{flat_map};
ghost use Rattle.unigram.specs.Segment.{lengths_of};
ghost use Rattle.unigram.specs.Checked.{scratch_now};
ghost use Rattle.coder.specs.Vocabulary.{sound_in};
ghost use Rattle.coder.specs.Columns.{vocabulary};
ghost use Rattle.output.specs.Lines.{lines};
ghost use Rattle.output.specs.Output.{lent_places, coded_line};
ghost use Rattle.output.specs.Put.{Put};
ghost use Rattle.refusal.specs.Lent.{was};

use crate::lines::line_end;
use crate::put::{put_ids, put_refusal};
use coder::Coder;

// One line: its ids, or its refusal. Either takes at most 11 bytes for each byte of the line, and 11. `sound` is what was found
// of the parts. The scratch may hold anything: what a line before it left there has no effect.
pub(crate) fn put_line(
    coder: &Coder,
    sound: bool,
    line: &[u8],
    start: &mut [u32],
    slot_id: &mut [u32],
    slot_score: &mut [f64],
    path: &mut [u32],
    ids: &mut [u32],
    out: &mut [u8],
    at: usize,
) -> usize
    requires sound_value { sound ≡ sound_in (vocabulary coder.now) }
    requires ids_value { lengths_of (scratch_now start slot_id slot_score path ids) ≡ lent_places }
    requires line_in_bounds { at + 11 * length line.now + 11 ≤ length out.old }
    ensures { Put out.old at (coded_line (vocabulary coder.now) (was line)) result
        out.new × (result ≤ at + 11 * length (was line) + 11) }
{
    let coded = coder::checked::code(coder, sound, line, start, slot_id, slot_score, path, ids);
    match coded {
        Ok(n) => put_ids(out, at, &ids[..n]),
        Err(f) => put_refusal(out, at, b"", f),
    }
}

// All lines of the input. The parts are tested once, and the lines share the scratch.
pub(crate) fn put_lines(coder: &Coder, input: &[u8], out: &mut [u8]) -> usize
    requires { 11 * length input.now + 11 ≤ length out.old }
    ensures { Put out.old 0 (flat_map (coded_line (vocabulary coder.now))
        (lines (was input))) result out.new }
{
    let sound = coder::sound(coder);
    let mut start = [0u32; 4096];
    let mut slot_id = [0u32; 4096];
    let mut slot_score = [0.0; 4096];
    let mut path = [0u32; 4096];
    let mut ids = [0u32; 4096];
    let mut at: usize = 0;
    let mut from: usize = 0;
    while from < input.len() {
        let end = line_end(input, from);
        let line = &input[from..end];
        at = put_line(
            coder,
            sound,
            line,
            &mut start,
            &mut slot_id,
            &mut slot_score,
            &mut path,
            &mut ids,
            out,
            at,
        );
        from = end + 1;
    }
    at
}
