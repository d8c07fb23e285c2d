// For callers that have judged the rows: the room in the lent columns, and the build of one trie in them.
ghost use Rattle.std.specs.Prelude.{◌≡◌, ◌≤◌, min};
ghost use Rattle.build.specs.Given.{given};
ghost use Rattle.build.specs.Held.{LevelRows};
ghost use Rattle.build.specs.Memory.{memory, memory_is, memory_now, memory_was};
ghost use Rattle.build.specs.Checked.{room_of, BuiltOf};
ghost use Rattle.refusal.specs.Lent.{was};

use crate::steps::finish;
use crate::vocabulary::enter_rows;
use rows::Kind;

fn least(a: usize, b: usize) -> usize
    ensures { result ≡ min a b }
{
    if a <= b { a } else { b }
}

// How many nodes the lent columns have room for. A node's number fits a u32.
pub fn room(
    edge_at: &[u32],
    edge_n: &[u16],
    id: &[u32],
    byte: &[u8],
    to: &[u32],
    work: &[u32],
) -> usize
    ensures { result ≡ room_of (memory (was edge_at) (was edge_n) (was id) (was byte) (was to) (was work)) }
{
    let nodes = least(
        least(edge_at.len(), edge_n.len()),
        least(id.len(), byte.len() + 1),
    );
    let edges = least(to.len() + 1, work.len() / 2);
    least(nodes, least(edges, 4_294_967_295))
}

// The trie of the rows in the lent columns, where `room` nodes fit: for Unigram the first row of a token gives the id, its
// index, for WordPiece the last, its own. Where the trie needs more nodes, every lent place is zero afterwards.
pub fn build(
    kind: Kind,
    tab: &[u8],
    off: &[u32],
    len: &[u32],
    ids: &[u32],
    edge_at: &mut [u32],
    edge_n: &mut [u16],
    id: &mut [u32],
    byte: &mut [u8],
    to: &mut [u32],
    work: &mut [u32],
    room: usize,
) -> Option<usize>
    requires { LevelRows kind tab.now off.now len.now ids.now × (room ≤ room_of
        (memory_now edge_at edge_n id byte to work)) }
    ensures { BuiltOf kind (was tab) (given (was off) (was len) (was ids)) room
        (memory_was edge_at edge_n id byte to work) (memory_is edge_at edge_n id byte to work) result }
{
    let made = enter_rows(kind, tab, off, len, ids, edge_n, id, work, room);
    finish(edge_at, edge_n, id, byte, to, work, made)
}
