// The paper's sizes, why a call refuses, and the paper's number of each fault.
#![tactic(auto)]

ghost use Rattle.std.specs.Prelude.{◌≡◌};
ghost use Rattle.refusal.specs.Refusal.{number, fault_of};
ghost use Rattle.refusal.specs.declared.Reason.TheVariants.{Call};

// The most rows; the most bytes of a string table, a token, a text or word, and a prefix.
pub const MAX_ROWS: usize = 1_048_576;

pub const MAX_TABLE: usize = 16_777_216;

pub const MAX_TOKEN: u32 = 1_024;

pub const MAX_TEXT: usize = 65_536;

pub const MAX_PREFIX: usize = 64;

// The mark for no id, no start and no node: the largest u32, which no row's id may be.
pub const NO_ID: u32 = 4_294_967_295;

// What is wrong, in the order of the paper's numbers, 1 to 11.
#[derive(Clone, Copy, PartialEq, Eq)]
pub enum Fault {
    Size,
    Span,
    Token,
    Text,
    Score,
    Id,
    Room,
    Trie,
    Scratch,
    Ids,
    Pack,
}

impl Fault {
    // The paper's number.
    pub fn number(self) -> u32
        ensures { result ≡ number self }
    {
        match self {
            Fault::Size => 1,
            Fault::Span => 2,
            Fault::Token => 3,
            Fault::Text => 4,
            Fault::Score => 5,
            Fault::Id => 6,
            Fault::Room => 7,
            Fault::Trie => 8,
            Fault::Scratch => 9,
            Fault::Ids => 10,
            Fault::Pack => 11,
        }
    }
}

// The reason of a refused build: what is wrong with the call, or with a row of the list and which row.
#[derive(Clone, Copy, PartialEq, Eq)]
pub enum Reason {
    Call(Fault),
    Row(Fault, u32),
}

impl Reason {
    // What is wrong.
    pub fn fault(self) -> Fault
        ensures { result ≡ fault_of self }
    {
        match self {
            Reason::Call(f) => f,
            Reason::Row(f, _) => f,
        }
    }
}

// A fault that is of no row is one of the call: `?` says so.
impl From<Fault> for Reason {
    ghost from_gives = { λ f r. r ≡ Call f };

    fn from(f: Fault) -> Reason {
        Reason::Call(f)
    }
}
