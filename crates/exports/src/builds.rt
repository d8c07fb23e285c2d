// Both builds. An answer's low 32 bits are the number of nodes where its high bits are 0. Otherwise the high bits are the
// refusal's number and the low ones the row, or 4,294,967,295 where it names none.
ghost use Rattle.std.specs.Prelude.{◌≡◌};
ghost use Rattle.doubles.specs.Units.{units, scores_is, scores_was, scores_had};
ghost use Rattle.build.specs.Memory.{memory_is, memory_was, scored_memory_is, scored_memory_was};
ghost use Rattle.exports.specs.Flat.{columns_was, reason_number, from_rows_number, told_number, told_score, with_first, As};
ghost use Rattle.scored.specs.Build.{told, Built};
ghost use Rattle.wordpiece.specs.Build as from-rows;
ghost use Rattle.refusal.specs.Lent.{was};

use refusal::Reason;
use rows::columns::Lists;
use scored::Summary;

// The reason as one number.
pub(crate) fn reason_number(r: Reason) -> u64
    ensures { result ≡ reason_number r }
{
    match r {
        Reason::Call(f) => f.number() as u64 * 4_294_967_296 + 4_294_967_295,
        Reason::Row(f, i) => f.number() as u64 * 4_294_967_296 + i as u64,
    }
}

// An answer of `from_rows` as one number.
fn from_rows_number(a: Result<u32, Reason>) -> u64
    ensures { result ≡ from_rows_number a }
{
    match a {
        Ok(n) => n as u64,
        Err(r) => reason_number(r),
    }
}

// The WordPiece trie of the rows, in the lent columns.
#[unsafe(no_mangle)]
pub extern "C" fn sk_from_rows(
    tab: &[u8],
    off: &[u32],
    len: &[u32],
    scored: &[bool],
    score: &[f64],
    id: &[u32],
    edge_at: &mut [u32],
    edge_n: &mut [u16],
    node_id: &mut [u32],
    byte: &mut [u8],
    to: &mut [u32],
    work: &mut [u32],
) -> u64
    ensures { As from_rows_number (λ said. from-rows.Built (was tab) (columns_was off len scored score id)
        (memory_was edge_at edge_n node_id byte to work) said (memory_is edge_at edge_n node_id byte to work)) result }
{
    let lists = Lists {
        off,
        len,
        scored,
        score,
        id,
    };
    from_rows_number(wordpiece::from_rows(tab, &lists, edge_at, edge_n, node_id, byte, to, work))
}

// A score in the first of the lent places, if there is one.
pub(crate) fn put_score(places: &mut [f64], x: f64)
    ensures { scores_is places ≡ with_first (units x) (scores_had places) }
{
    if 0 < places.len() {
        places[0] = x;
    }
}

// An answer of `build` as one number, and its unknown score in the first of the lent places.
fn built_number(a: Result<Summary, Reason>, unknown_score: &mut [f64]) -> u64
    ensures { (result ≡ told_number (told a)) × (scores_is unknown_score ≡ told_score (told a) (scores_had unknown_score)) }
{
    match a {
        Ok(s) => {
            put_score(unknown_score, s.unknown_score);
            s.nodes as u64
        }
        Err(r) => reason_number(r),
    }
}

// The Unigram trie of the rows, in the lent columns; its unknown score is in the first place lent for it.
#[unsafe(no_mangle)]
pub extern "C" fn sk_build(
    tab: &[u8],
    off: &[u32],
    len: &[u32],
    scored: &[bool],
    score: &[f64],
    id: &[u32],
    edge_at: &mut [u32],
    edge_n: &mut [u16],
    node_id: &mut [u32],
    node_score: &mut [f64],
    byte: &mut [u8],
    to: &mut [u32],
    work: &mut [u32],
    unknown_score: &mut [f64],
) -> u64
    ensures { As (λ said. told_number (told said)) (λ said. Built (was tab) (columns_was off len scored score id)
        (scored_memory_was edge_at edge_n node_id node_score byte to work) said
        (scored_memory_is edge_at edge_n node_id node_score byte to work)
        × (scores_is unknown_score ≡ told_score (told said) (scores_had unknown_score))) result }
{
    let lists = Lists {
        off,
        len,
        scored,
        score,
        id,
    };
    built_number(
        scored::build(
            tab, &lists, edge_at, edge_n, node_id, node_score, byte, to, work,
        ),
        unknown_score,
    )
}
