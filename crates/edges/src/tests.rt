// Document 01, "Refusal numbers": the tests of an edge's arguments.
// From the Rust's atn/serialized.rs: `read_index` and the set tests of `decode_transition`.

ghost use Rattle.std.specs.Prelude.{◌≡◌, List, ℕ, ℤ};
ghost use Rattle.format.specs.Kinds.{edge_number};
ghost use Rattle.format.specs.Reading.{Table, run};
ghost use Rattle.format.specs.Sections.{test_a, test_b};
ghost use Rattle.words.specs.Answers.{outcome};

use format::Spot;
use format::kinds::EdgeKind;
use format::reason::Reason;
use words::Read;

// "a negative or 9": a is a set's number, or an index, or anything.
pub fn test_a(
    record: usize,
    kind: EdgeKind,
    a: i32,
    nsets: usize,
    place: usize,
    next: usize,
) -> Read<usize>
    ensures { (ws : List ℤ) (rooms : Table → ℕ) → outcome result ≡ run (test_a «record» nsets (edge_number kind) place a) ws rooms next }
{
    let spot = Spot { field: 27, record };
    match kind {
        EdgeKind::Set | EdgeKind::NotSet => {
            let (set, on) = words::read_index(a, spot, place, next)?;
            words::listed(set, Reason::UnlistedSet as u32, nsets, spot, place, on)
        }
        EdgeKind::Rule | EdgeKind::Predicate | EdgeKind::Action => {
            words::read_index(a, spot, place, next)
        }
        _ => Ok((0, next)),
    }
}

// "then b": an index in types 3 and 4; any b is good in the others.
pub fn test_b(record: usize, kind: EdgeKind, b: i32, place: usize, next: usize) -> Read<usize>
    ensures { (ws : List ℤ) (rooms : Table → ℕ) → outcome result ≡ run (test_b «record» (edge_number kind) place b) ws rooms next }
{
    match kind {
        EdgeKind::Rule | EdgeKind::Predicate => {
            words::read_index(b, Spot { field: 28, record }, place, next)
        }
        _ => Ok((0, next)),
    }
}
