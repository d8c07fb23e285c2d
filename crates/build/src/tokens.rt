// Tokens entered byte by byte, each new prefix taking the next node number, and the ids that their last nodes take.
ghost use Rattle.std.specs.Prelude.{◌≡◌, ◌<◌, length};
ghost use Rattle.build.specs.Held.{Enterable, TokenEntered, marked_ids, RowEntered};
ghost use Rattle.refusal.specs.Lent.{was};

use crate::links::{Reached, child};
use refusal::NO_ID;
use rows::Kind;

// The token from the root on: its last node, and how many nodes there are. None where no room is left.
fn enter(
    token: &[u8],
    edge_n: &mut [u16],
    id: &mut [u32],
    work: &mut [u32],
    room: usize,
    n: usize,
) -> Option<Reached>
    requires { Enterable edge_n.old id.old work.old room 0 n }
    ensures { TokenEntered edge_n.old id.old work.old edge_n.new id.new work.new room n (was token) result }
{
    let mut at = Reached { node: 0, n };
    for b in token {
        at = child(edge_n, id, work, room, at, *b)?;
    }
    Some(at)
}

// The id v for `node`: for Unigram only if it has none yet.
fn mark(id: &mut [u32], node: usize, kind: Kind, v: u32)
    requires { node < length id.old }
    ensures { id.new ≡ marked_ids kind id.old node v }
{
    if let Kind::Unigram = kind {
        if id[node] != NO_ID {
            return;
        }
    }
    id[node] = v;
}

// A token that is given the id v: how many nodes there are then, None where no room is left. An empty token does nothing.
pub fn enter_token(
    token: &[u8],
    kind: Kind,
    v: u32,
    edge_n: &mut [u16],
    id: &mut [u32],
    work: &mut [u32],
    room: usize,
    n: usize,
) -> Option<usize>
    requires { Enterable edge_n.old id.old work.old room 0 n }
    ensures { RowEntered edge_n.old id.old work.old edge_n.new id.new work.new kind room n (was token) v result }
{
    if token.is_empty() {
        return Some(n);
    }
    let end = enter(token, edge_n, id, work, room, n)?;
    mark(id, end.node, kind, v);
    Some(end.n)
}
