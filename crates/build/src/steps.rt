// The first and the last step of a build, for callers that have judged their rows, wherever those stand. Between the two each
// row's token is entered, by `tokens::enter_token`.
ghost use Rattle.std.specs.Prelude.{◌≡◌, [], ◌∷◌, ◌<◌, length, set};
ghost use Rattle.refusal.specs.Sizes.{no_id};
ghost use Rattle.build.specs.Given.{no_rule};
ghost use Rattle.build.specs.Held.{Roomy, RowDone};
ghost use Rattle.build.specs.Memory.{memory_is, memory_now, memory_was};
ghost use Rattle.build.specs.Checked.{Finishable, Finished};

use crate::lay::lay_out;
use crate::zero::clear;
use refusal::NO_ID;

// The root, alone: it has no id and no child.
fn plant(id: &mut [u32], work: &mut [u32])
    requires { (0 < length id.old) × (0 < length work.old) }
    ensures { (id.new ≡ set id.old 0 no_id) × (work.new ≡ set work.old 0 0) }
{
    id[0] = NO_ID;
    work[0] = 0;
}

// The root, alone, in columns that may hold anything: how many nodes there are, 1, or None where there is no room for it.
pub fn start(edge_n: &mut [u16], id: &mut [u32], work: &mut [u32], room: usize) -> Option<usize>
    requires { Roomy room edge_n.old id.old work.old }
    ensures { RowDone ([] ∷ []) no_rule room edge_n.new id.new work.new result }
{
    edge_n.fill(0);
    id.fill(0);
    if room == 0 {
        return None;
    }
    plant(id, work);
    Some(1)
}

// The nodes that the rows made, `made` of them, laid out as parts. Where there was no room for them, it is None, and every lent
// place is zero afterwards.
pub fn finish(
    edge_at: &mut [u32],
    edge_n: &mut [u16],
    id: &mut [u32],
    byte: &mut [u8],
    to: &mut [u32],
    work: &mut [u32],
    made: Option<usize>,
) -> Option<usize>
    requires { Finishable (memory_now edge_at edge_n id byte to work) made }
    ensures { Finished (memory_was edge_at edge_n id byte to work) (memory_is edge_at edge_n id byte to work) made
        result }
{
    match made {
        None => {
            clear(edge_at, edge_n, id, byte, to, work);
            None
        }
        Some(n) => {
            lay_out(edge_at, edge_n, byte, to, work, n);
            Some(n)
        }
    }
}
