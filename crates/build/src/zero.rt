// Lent places made zero.
ghost use Rattle.std.specs.Prelude.{◌≡◌};
ghost use Rattle.build.specs.Memory.{cleared, memory_is, memory_was};

// Every lent node, edge and work place.
pub fn clear(
    edge_at: &mut [u32],
    edge_n: &mut [u16],
    id: &mut [u32],
    byte: &mut [u8],
    to: &mut [u32],
    work: &mut [u32],
)
    ensures { memory_is edge_at edge_n id byte to work ≡ cleared (memory_was edge_at edge_n id byte to work) }
{
    edge_at.fill(0);
    edge_n.fill(0);
    id.fill(0);
    byte.fill(0);
    to.fill(0);
    work.fill(0);
}
