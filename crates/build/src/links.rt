// The children of a node, linked by rising byte. Work place 2k has the first child of node k and place 2k + 1 its next sibling,
// 0 for none: the root is nobody's child. While tokens are entered, a node's own byte stands in its `edge_n` place.
ghost use Rattle.std.specs.Prelude.{◌≡◌, ◌+◌, ◌*◌, ◌<◌, set};
ghost use Rattle.refusal.specs.Sizes.{no_id};
ghost use Rattle.build.specs.Links.{linked_work};
ghost use Rattle.build.specs.Held.{Roomy, Chained, Sought, Enterable, ByteEntered};
ghost use Rattle.refusal.specs.Lent.{was};

use refusal::NO_ID;

// The work place whose link leads to the first child of `node` by b or a later byte: the node's own, or that of the child
// before. Bytes rise along the links, so the walk ends. It follows links and counts nothing, so no iterator says it plainer.
pub fn seek(edge_n: &[u16], work: &[u32], node: usize, b: u8) -> usize
    requires { Chained edge_n.now work.now 0 node }
    ensures { Sought (was edge_n) (was work) node b result }
{
    let byte = b as u16;
    let mut at = 2 * node;
    loop {
        let k = work[at] as usize;
        if k == 0 {
            return at;
        }
        if byte <= edge_n[k] {
            return at;
        }
        at = 2 * k + 1;
    }
}

// Node n, by the byte b, behind the link at `at`. It leads on to what that led to, and has no id yet and no child.
pub fn link(edge_n: &mut [u16], id: &mut [u32], work: &mut [u32], at: usize, n: usize, b: u8)
    requires { (at < 2 * n) × Roomy (n + 1) edge_n.old id.old work.old }
    ensures { (edge_n.new ≡ set edge_n.old n b) × (id.new ≡ set id.old n no_id) × (work.new ≡ linked_work work.old at n) }
{
    let next = work[at];
    work[2 * n] = 0;
    work[2 * n + 1] = next;
    work[at] = n as u32;
    edge_n[n] = b as u16;
    id[n] = NO_ID;
}

// Where a token has come to, and how many nodes there are.
#[derive(Clone, Copy)]
pub struct Reached {
    pub node: usize,
    pub n: usize,
}

// The child by the byte b of the node reached: the one that is there, or else the next node, which is made. None where it is
// not there and no room is left.
pub fn child(
    edge_n: &mut [u16],
    id: &mut [u32],
    work: &mut [u32],
    room: usize,
    from: Reached,
    b: u8,
) -> Option<Reached>
    requires { Enterable edge_n.old id.old work.old room from.node from.n }
    ensures { ByteEntered edge_n.old id.old work.old edge_n.new id.new work.new room from.node from.n b
        result }
{
    let n = from.n;
    let at = seek(edge_n, work, from.node, b);
    let k = work[at] as usize;
    if k != 0 && edge_n[k] == b as u16 {
        return Some(Reached { node: k, n });
    }
    if n == room {
        return None;
    }
    link(edge_n, id, work, at, n, b);
    Some(Reached { node: n, n: n + 1 })
}
