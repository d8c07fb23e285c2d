// Replays stored cases of what the program `ids` prints, and prints how many agree and how many differ. Standard input has, for
// each case, the lengths of a pack, an input and an output as little-endian words, and then their bytes. The outputs are what
// the Rust and the paper give: they are made by compare/src/packs.rs from a fixed seed, small packs of both kinds with lines
// over them, every fourth pack damaged.
#![tactic(auto)]

ghost use Rattle.std.specs.Counts.{IsPrefixLen};

use std::io::Read;

// Whether the program prints this.
fn agrees(pack: &[u8], input: &[u8], right: &[u8]) -> bool {
    let mut out = [0u8; output::MAX_OUTPUT];
    let n = output::print(pack, input, &mut out);
    &out[..n] == right
}

// Reads so many bytes into the front of the buffer, and answers how many came; none where they are too many.
fn read_part<R: Read>(input: &mut R, part: &mut [u8], n: usize) -> usize
    ensures { IsPrefixLen result part.new }
{
    if part.len() < n {
        return 0;
    }
    streams::read_full(input, &mut part[..n])
}

// Whether the case of these lengths is there and agrees.
fn read_case<R: Read>(from: &mut R, p: usize, i: usize, r: usize) -> bool {
    let mut pack = [0u8; 4_096];
    let a = read_part(from, &mut pack, p);
    let mut input = [0u8; 4_096];
    let b = read_part(from, &mut input, i);
    let mut right = [0u8; 4_096];
    let c = read_part(from, &mut right, r);
    a == p && b == i && c == r && agrees(&pack[..a], &input[..b], &right[..c])
}

// Whether the next case agrees; nothing at the end of the input. A case that is cut short differs.
fn next_case<R: Read>(input: &mut R) -> Option<bool> {
    let mut head = [0u8; 12];
    let n = streams::read_full(input, &mut head);
    if n == 0 {
        return None;
    }
    let p = pack::header::word(&head, 0) as usize;
    let i = pack::header::word(&head, 4) as usize;
    let r = pack::header::word(&head, 8) as usize;
    Some(n == 12 && read_case(input, p, i, r))
}

// More cases than any run has.
const MANY: u64 = 1_000_000;

fn main(rt: HostRuntime) {
    let mut input = rt.reader();
    let tally = streams::counted(MANY, || next_case(&mut input));
    let _ = println!(rt; "{tally}");
}
