// The linked nodes laid out as parts: "Edges stand node after node, by rising byte." A node's children have larger numbers, so
// their bytes are read from their `edge_n` places before those take their own counts.
ghost use Rattle.build.specs.Laying.{ChildrenReady, ChildrenLaid, NodeReady, NodeLaid, AllReady, AllLaid};
ghost use Rattle.refusal.specs.Lent.{was};

// The edges of `node`, from edge number `from` on: the edge number after them. The walk follows the links from child to child,
// and no iterator over the columns goes that way.
fn lay_children(
    edge_n: &[u16],
    byte: &mut [u8],
    to: &mut [u32],
    work: &[u32],
    node: usize,
    from: usize,
) -> usize
    requires { ChildrenReady edge_n.now work.now byte.old to.old node from }
    ensures { ChildrenLaid (was edge_n) (was work) byte.old to.old byte.new to.new node from result }
{
    let mut at = from;
    let mut k = work[2 * node] as usize;
    while k != 0 {
        byte[at] = edge_n[k] as u8;
        to[at] = k as u32;
        at += 1;
        k = work[2 * k + 1] as usize;
    }
    at
}

// A node with its edges from edge number `from` on: the edge number after them.
fn lay_node(
    edge_at: &mut [u32],
    edge_n: &mut [u16],
    byte: &mut [u8],
    to: &mut [u32],
    work: &[u32],
    node: usize,
    from: usize,
) -> usize
    requires { NodeReady edge_at.old edge_n.old byte.old to.old work.now node from }
    ensures { NodeLaid edge_at.old edge_n.old byte.old to.old (was work) edge_at.new edge_n.new
        byte.new to.new node from result }
{
    let end = lay_children(edge_n, byte, to, work, node, from);
    edge_at[node] = from as u32;
    edge_n[node] = (end - from) as u16;
    end
}

// The n nodes that were entered, into columns that may hold anything, and the work places made zero.
pub fn lay_out(
    edge_at: &mut [u32],
    edge_n: &mut [u16],
    byte: &mut [u8],
    to: &mut [u32],
    work: &mut [u32],
    n: usize,
)
    requires { AllReady edge_at.old edge_n.old byte.old to.old work.old n }
    ensures { AllLaid edge_at.old edge_n.old byte.old to.old work.old edge_at.new edge_n.new byte.new
        to.new work.new n }
{
    edge_at.fill(0);
    byte.fill(0);
    to.fill(0);
    let mut at: usize = 0;
    for k in 0..n {
        at = lay_node(edge_at, edge_n, byte, to, work, k, at);
    }
    work.fill(0);
}
