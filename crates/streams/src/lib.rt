// Reading for the programs: a buffer is filled as far as the input goes, and what stored cases come to is counted.
#![tactic(auto)]

ghost use Rattle.std.specs.Counts.{IsPrefixLen};
ghost use Rattle.streams.specs.Counted.{Counted};

use std::fmt;
use std::io::Read;

// Reads until the buffer is full, the input ends or a read fails, and answers how many bytes it put at the buffer's front,
// which `read_exact` would not.
pub fn read_full<R: Read>(from: &mut R, buf: &mut [u8]) -> usize
    ensures { IsPrefixLen result buf.new }
{
    let mut done = 0;
    while done < buf.len() {
        let Ok(n) = from.read(&mut buf[done..]) else {
            break;
        };
        if n == 0 {
            break;
        }
        done += n;
    }
    done
}

// How many stored cases agree with what is computed, and how many differ.
#[derive(Clone, Copy)]
pub struct Tally {
    pub agree: u64,
    pub differ: u64,
}

impl fmt::Display for Tally {
    fn fmt<W: fmt::Write>(&self, f: &mut fmt::Formatter<W>) -> fmt::Result {
        writeln!(f, "{} agree", self.agree)?;
        write!(f, "{} differ", self.differ)
    }
}

// Counts cases, up to so many: `next` answers whether the next one agrees, and nothing where there is none.
pub fn counted<F: FnMut() -> Option<bool>>(limit: u64, mut next: F) -> Tally
    requires { F.IsAlwaysCallable next }
    ensures { Counted (λ f answer g. F.step f answer g) limit next result.agree result.differ }
{
    let mut tally = Tally {
        agree: 0,
        differ: 0,
    };
    for _ in 0..limit {
        let Some(agrees) = next() else {
            return tally;
        };
        if agrees {
            tally.agree += 1;
        } else {
            tally.differ += 1;
        }
    }
    tally
}
