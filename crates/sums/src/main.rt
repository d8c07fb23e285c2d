// Replays stored sums and comparisons of doubles, and prints how many agree and how many differ. Standard input has a line for
// each: the bit patterns of a, of b and of a + b, in 16 hexadecimal digits each, and 1 where a < b, else 0. They are answers of
// Rust's own f64, made by compare/src/sums.rs from a fixed seed: edges in all pairs, then random doubles, near and far
// exponents, ties and their neighbours, near cancellations, subnormals, sums around the largest double, and numbers such as a
// vocabulary's scores.
#![tactic(auto)]

ghost use Rattle.std.specs.Prelude.{◌≤◌};

use doubles::Pattern;
use std::io::Read;

// What a hexadecimal digit stands for.
fn digit(b: u8) -> u64 {
    let d = match b {
        b'a'.. => b - 87,
        b'0'.. => b - 48,
        _ => 0,
    };
    u64::from(d)
}

// The number that the 16 digits from at on spell.
fn word(line: &[u8; 53], at: usize) -> u64
    requires { at ≤ 37 }
{
    line[at..at + 16]
        .iter()
        .fold(0, |n, b| (n << 4) | digit(*b))
}

// Whether x + y has the pattern c, is finite exactly where c stands for a finite double, and x < y is what is stored.
fn sum_agrees(x: f64, y: f64, c: u64, is_less: bool) -> bool {
    let sum = doubles::added(x, y);
    let is_finite = matches!(doubles::from_bits(c), Pattern::Finite(_));
    doubles::to_bits(sum) == Some(c)
        && doubles::is_finite(sum) == is_finite
        && doubles::better(y, x) == is_less
}

fn agrees(line: &[u8; 53]) -> bool {
    let Pattern::Finite(x) = doubles::from_bits(word(line, 0)) else {
        return false;
    };
    let Pattern::Finite(y) = doubles::from_bits(word(line, 17)) else {
        return false;
    };
    sum_agrees(x, y, word(line, 34), line[51] == b'1')
}

// Whether the next line agrees; nothing at the end of the input. A line that is cut short differs.
fn next_line<R: Read>(input: &mut R) -> Option<bool> {
    let mut line = [0u8; 53];
    match streams::read_full(input, &mut line) {
        0 => None,
        n => Some(n == 53 && agrees(&line)),
    }
}

// More lines than any run has.
const MANY: u64 = 1_000_000;

fn main(rt: HostRuntime) {
    let mut input = rt.reader();
    let tally = streams::counted(MANY, || next_line(&mut input));
    let _ = println!(rt; "{tally}");
}
