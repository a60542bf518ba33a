// The types of document 01's answers, its table of the thirteen state types, and the places of a record's words (state, edge, range, set,
// rule, name for modes and decisions, action). The definitions are in specs/.

#![tactic(auto)]

pub mod action;
pub mod edge;
pub mod kinds;
pub mod name;
pub mod range;
pub mod reason;
pub mod rule;
pub mod set;
pub mod state;

ghost use Rattle.std.specs.Prelude.{◌≡◌, get_or};
ghost use Rattle.format.specs.Sections.{follows};

// What a word belongs to: its field, and the number of its record, from 0 (document 02, R-2).
#[derive(Clone, Copy, Debug, PartialEq, Eq)]
pub struct Spot {
    pub field: u32,
    pub record: usize,
}

// Why a decode or a writing was refused: its number, field, record number, place and value.
#[derive(Clone, Copy, Debug, PartialEq, Eq)]
pub struct Refusal {
    pub number: u32,
    pub field: u32,
    pub record: usize,
    pub place: usize,
    pub value: i64,
}

// Words read, max token type, and records in each table, with derived edges also on their own.
#[derive(Clone, Copy, Debug, PartialEq, Eq)]
pub struct Counts {
    pub words: usize,
    pub token: i32,
    pub states: usize,
    pub edges: usize,
    pub derived: usize,
    pub ranges: usize,
    pub sets: usize,
    pub rules: usize,
    pub modes: usize,
    pub decisions: usize,
    pub actions: usize,
}

// Either an acceptance holding its counts or a refusal holding its number, field, record number, place and value.
pub type Decoded = Result<Counts, Refusal>;

// The number of words that were written, or why none were (document 02, R-1).
pub type Written = Result<usize, Refusal>;

// Why a question was refused: a question's refusal holds number and value.
#[derive(Clone, Copy, Debug, PartialEq, Eq)]
pub struct Denial {
    pub number: u32,
    pub value: i64,
}

// The number of a state's n-th edge.
pub type NthEdge = Result<i32, Denial>;

// Whether an edge matches a symbol.
pub type Matching = Result<bool, Denial>;

// A set's ranges as a part of the lent table: the part's first word, and its length in words.
pub type SetPart = Result<(usize, usize), Denial>;

// How many words follow a state of each of the thirteen types. Bytes, since the table is laid out anew where it is read.
pub const FOLLOWS: [u8; 13] = [0, 1, 1, 2, 2, 2, 1, 1, 1, 1, 1, 1, 2];

// The table, read: 0 for what is no state type.
pub fn words_after(kind: usize) -> usize
    ensures { result ≡ get_or follows kind 0 }
{
    match FOLLOWS.get(kind) {
        Some(&words) => usize::from(words),
        None => 0,
    }
}
