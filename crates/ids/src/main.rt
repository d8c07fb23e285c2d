// Prints the ids of each line of standard input, in the vocabulary of the file `vocab.pack` of its working folder. What it
// prints is what `output::print` puts into a buffer; this file only reads and writes. It reads one byte more than may be there,
// so that too much shows.
#![tactic(auto)]

ghost use Rattle.std.specs.Counts.{IsPrefixLen};

use std::fs;
use std::io::{self, Write};
use std::rt::Files;

// The bytes of the pack; none where the file can't be opened.
fn read_pack<R: Files>(rt: &R, pack: &mut [u8]) -> usize
    ensures { IsPrefixLen result pack.new }
{
    let Ok(mut file) = fs::open(rt, "vocab.pack") else {
        return 0;
    };
    streams::read_full(&mut file, pack)
}

fn main(rt: HostRuntime) {
    let mut pack = [0u8; 65_537];
    let p = read_pack(&rt, &mut pack);
    let mut input = [0u8; 32_769];
    let n = streams::read_full(&mut rt.reader(), &mut input);
    let mut out = [0u8; output::MAX_OUTPUT];
    let end = output::print(&pack[..p], &input[..n], &mut out);
    let _ = io::writer(&rt).write_all(&out[..end]);
}
