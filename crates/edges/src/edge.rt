// Document 01, "Edges: six words are read (24 and 25 tested as read), then 8, then a negative or 9, then b, then 10."
// From the Rust's atn/serialized.rs: one turn of `deserialize_edges`.

ghost use Rattle.std.specs.Prelude.{◌≡◌, List, ℕ, ◌+◌, ◌<◌, ◌^◌, ℤ};
ghost use Rattle.format.specs.Kinds.{edge_number};
ghost use Rattle.format.specs.Reading.{Table, run, known};
ghost use Rattle.format.specs.Sections.{edge};
ghost use Rattle.edges.specs.Edge.{checked, meant, numbered, Bounded};

use crate::reading::RawEdge;
use crate::{reading, tests};
use format::kinds::EdgeKind;
use format::reason::Reason;
use format::{Counts, Spot};
use words::Read;

// A word that was read, as the type of an edge: refusal 8 if no type has that number.
fn edge_kind(word: i32, spot: Spot, place: usize, next: usize) -> Read<EdgeKind>
    ensures { (ws : List ℤ) (rooms : Table → ℕ) → numbered result ≡ run (known 8 1 10 spot place word) ws rooms next }
{
    match EdgeKind::try_from(word) {
        Ok(kind) => Ok((kind, next)),
        Err(_) => Err(words::refused(Reason::UnknownEdge as u32, spot, place, word)),
    }
}

// An edge that passed its tests: its type, and the words that were read.
#[derive(Clone, Copy)]
pub struct Tested {
    pub kind: EdgeKind,
    pub raw: RawEdge,
}

// From the tests of a on: the type is known. (The record's number, its place and the next one are passed by value.)
fn check_edge(
    record: usize,
    kind: EdgeKind,
    raw: RawEdge,
    place: usize,
    next: usize,
    counts: &Counts,
) -> Read<Tested>
    requires { (raw.source < 2 ^ 31) × (raw.target < 2 ^ 31) × (place + 6 < 2 ^ 64) }
    ensures says { (ws : List ℤ) (rooms : Table → ℕ) → meant result ≡ run (checked «record» counts.now.states counts.now.sets place (edge_number kind) raw) ws rooms next }
    ensures bounded { Bounded counts.now.states result }
{
    let spot = Spot { field: 24, record };
    let (_, then) = tests::test_a(record, kind, raw.a, counts.sets, place + 3, next)?;
    let (_, last) = tests::test_b(record, kind, raw.b, place + 4, then)?;
    let (_, end) = words::listed(
        raw.source,
        Reason::UnlistedSource as u32,
        counts.states,
        spot,
        place,
        last,
    )?;
    Ok((Tested { kind, raw }, end))
}

// The edge with that number. (Its eight words are made where they are stored: as part of this answer they take a decode 7 % longer.)
pub fn deserialize_edge(record: usize, words: &[i32], at: usize, counts: &Counts) -> Read<Tested>
    ensures says { (rooms : Table → ℕ) → meant result ≡ run (edge counts.now.states counts.now.sets «record») words.now rooms at }
    ensures bounded { Bounded counts.now.states result }
{
    let (raw, next) = reading::read_edge(record, words, at)?;
    let (kind, on) = edge_kind(raw.kind, Spot { field: 26, record }, at + 2, next)?;
    check_edge(record, kind, raw, at, on, counts)
}
