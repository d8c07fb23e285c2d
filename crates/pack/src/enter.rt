// The rows of a pack entered in order, and their trie laid out. For a caller that has judged them.
ghost use Rattle.std.specs.Prelude.{◌≡◌, ◌≤◌, ◌<◌};
ghost use Rattle.refusal.specs.Sizes.{max_rows};
ghost use Rattle.rows.specs.Rows.{worth_is, token_of};
ghost use Rattle.build.specs.Names.{names};
ghost use Rattle.build.specs.Rules.{tokens_of, id_of_worth};
ghost use Rattle.build.specs.Given.{value_of, rules_from, no_rule};
ghost use Rattle.build.specs.Held.{Roomy, RowEntered, RowDone};
ghost use Rattle.build.specs.Memory.{memory_is, memory_now, memory_was};
ghost use Rattle.build.specs.Checked.{room_of, BuiltOf};
ghost use Rattle.pack.specs.Pack.{row_at, rows_from};
ghost use Rattle.pack.specs.Reading.{row_start, FineRows, value_in, RowReady};
ghost use Rattle.refusal.specs.Lent.{was};

use crate::header::{HEADER, ROW};
use crate::row::row_at;
use build::steps::{finish, start};
use build::tokens::enter_token;
use rows::{Kind, Worth};

// The id that row i gives its token: its index, or the id that it has.
fn value(worth: Worth, i: usize) -> u32
    requires { i < max_rows }
    ensures { result ≡ value_in i (worth_is worth) }
{
    match worth {
        Worth::Score(_) => i as u32,
        Worth::Id(v) => v,
    }
}

// Row i: how many nodes there are then, None where no room is left.
fn enter_row(
    kind: Kind,
    bytes: &[u8],
    strings: &[u8],
    i: usize,
    edge_n: &mut [u16],
    id: &mut [u32],
    work: &mut [u32],
    room: usize,
    n: usize,
) -> Option<usize>
    requires { RowReady kind bytes.now strings.now edge_n.old id.old work.old room n i }
    ensures { RowEntered edge_n.old id.old work.old edge_n.new id.new work.new kind room n
        (token_of (was strings) (row_at kind (was bytes) (row_start i)))
        (value_of kind i (id_of_worth (row_at kind (was bytes) (row_start i)).worth)) result }
{
    let row = row_at(kind, bytes, HEADER + ROW * i);
    let token = text::checked::span(strings, row.off, row.len);
    let worth = row.worth;
    let v = value(worth, i);
    enter_token(token, kind, v, edge_n, id, work, room, n)
}

// All rows, from the root on, in columns that may hold anything: how many nodes there are, None where no room is left. The root
// needs room too.
fn enter_rows(
    kind: Kind,
    bytes: &[u8],
    strings: &[u8],
    rows: usize,
    edge_n: &mut [u16],
    id: &mut [u32],
    work: &mut [u32],
    room: usize,
) -> Option<usize>
    requires { FineRows kind bytes.now strings.now rows × Roomy room edge_n.old id.old work.old }
    ensures { RowDone (names (tokens_of (was strings) (rows_from kind (was bytes) 36 rows))) (rules_from kind (was strings)
        no_rule 0 (rows_from kind (was bytes) 36 rows)) room edge_n.new id.new work.new result }
{
    let mut n = start(edge_n, id, work, room)?;
    for i in 0..rows {
        n = enter_row(kind, bytes, strings, i, edge_n, id, work, room, n)?;
    }
    Some(n)
}

// The trie of the rows in the lent columns, where `room` nodes fit. Where it needs more nodes, every lent place is zero
// afterwards.
pub fn build_rows(
    kind: Kind,
    bytes: &[u8],
    strings: &[u8],
    rows: usize,
    edge_at: &mut [u32],
    edge_n: &mut [u16],
    id: &mut [u32],
    byte: &mut [u8],
    to: &mut [u32],
    work: &mut [u32],
    room: usize,
) -> Option<usize>
    requires { FineRows kind bytes.now strings.now rows × (room ≤ room_of
        (memory_now edge_at edge_n id byte to work)) }
    ensures { BuiltOf kind (was strings) (rows_from kind (was bytes) 36 rows) room
        (memory_was edge_at edge_n id byte to work) (memory_is edge_at edge_n id byte to work) result }
{
    let made = enter_rows(kind, bytes, strings, rows, edge_n, id, work, room);
    finish(edge_at, edge_n, id, byte, to, work, made)
}
