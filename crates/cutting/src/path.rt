// The records followed back from the text's end: where the pieces of the best cutting end, in order.
ghost use Rattle.std.specs.Prelude.{◌≡◌, ◌≤◌, length};
ghost use Rattle.cutting.specs.Tracing.{ends_from, Falling};
ghost use Rattle.refusal.specs.Places.{overlay};
ghost use Rattle.refusal.specs.Lent.{was};

// How many pieces there are before n. The walk follows the starts: it counts pieces, and no index.
fn count(start: &[u32], n: usize) -> usize
    requires { Falling start.now n }
    ensures { result ≡ length (ends_from (was start) n n) }
{
    let mut pieces: usize = 0;
    let mut at = n;
    while 0 < at {
        pieces += 1;
        at = start[at] as usize;
    }
    pieces
}

// Writes the ends of these pieces from the last to the first.
fn write(start: &[u32], n: usize, pieces: usize, path: &mut [u32])
    requires { Falling start.now n × (pieces ≡ length (ends_from start.now n n)) × (pieces ≤ length path.old) }
    ensures { path.new ≡ overlay (ends_from (was start) n n) path.old }
{
    let mut done: usize = 0;
    let mut at = n;
    while 0 < at {
        done += 1;
        let k = pieces - done;
        path[k] = at as u32;
        at = start[at] as usize;
    }
}

// The ends of the pieces before n go to the first path places. Answers how many there are.
pub fn trace(start: &[u32], n: usize, path: &mut [u32]) -> usize
    requires { Falling start.now n × (length (ends_from start.now n n) ≤ length path.old) }
    ensures { let ends = ends_from (was start) n n in (result ≡ length ends) × (path.new ≡ overlay ends path.old) }
{
    let pieces = count(start, n);
    write(start, n, pieces, path);
    pieces
}
