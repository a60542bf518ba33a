// Document 01, "Matching": how an edge of each type meets a symbol.

ghost use Rattle.std.specs.Prelude.{◌≡◌, ◌⊎◌, ℕ, ◌<◌, pos, true};
ghost use Rattle.std.specs.Option.{MatchOption};
ghost use Rattle.format.specs.Reading.{Sets, Ranges};
ghost use Rattle.format.specs.Kinds.{edge_number};
ghost use Rattle.format.specs.Questions.{fits, matching, set_part};
ghost use Rattle.questions.specs.Parts.{looked_up};
ghost use Rattle.questions.specs.Parts as spec;

use crate::denials;
use format::Matching;
use format::kinds::EdgeKind;

// `hit` is the lookup of the symbol in the edge's set; it counts for edges that have one alone.
fn by_kind(kind: EdgeKind, p: i32, q: i32, hit: bool, symbol: i32, min: i32, max: i32) -> bool
    ensures { result ≡ matching (edge_number kind) p q hit symbol min max }
{
    match kind {
        EdgeKind::Atom => p == symbol,
        EdgeKind::Range => (p..=q).contains(&symbol),
        EdgeKind::Set => hit,
        EdgeKind::NotSet => !hit && (min..=max).contains(&symbol),
        EdgeKind::Wildcard => (min..=max).contains(&symbol),
        _ => false,
    }
}

// Whether an edge's set holds the symbol. "A set part outside: 14", and so is a set that is not listed.
#[tactic(auto, using(crate::proofs::Inside::room))]
fn in_set(
    sets: &[i32],
    set_count: usize,
    ranges: &[i32],
    range_count: usize,
    set: i32,
    symbol: i32,
) -> Matching
    ensures { result ≡ looked_up ranges.now (set_part sets.now set_count ranges.now range_count set) symbol }
{
    match crate::set_part(sets, set_count, ranges, range_count, set) {
        Ok((from, length)) => Ok(ranges::contains(&ranges[from..from + length], symbol)),
        Err(_) => Err(denials::contradiction()),
    }
}

// The type that a word is, if it is an edge's.
fn kind_of(kind: i32) -> Option<EdgeKind>
    ensures { MatchOption result ((n : ℕ) → kind ≡ pos n → (n < 1) ⊎ (10 < n)) (λ k. kind ≡ pos (edge_number k)) }
{
    EdgeKind::try_from(kind).ok()
}

// A listed edge. (A table and its count are two parameters in this crate: `tables::rows::Rows` holds "65,536 at most", and a question takes
// any count, as C gives it.) "an edge type not 1 to 10, a set part outside: 14, whatever the symbol".
pub fn meets(
    kind: i32,
    p: i32,
    q: i32,
    sets: &[i32],
    set_count: usize,
    ranges: &[i32],
    range_count: usize,
    symbol: i32,
    min: i32,
    max: i32,
) -> Matching
    requires { (fits Sets set_count sets.now ≡ true) × (fits Ranges range_count ranges.now ≡ true) }
    ensures { result ≡ spec.meets kind p q sets.now set_count ranges.now range_count symbol min max }
{
    let Some(known) = kind_of(kind) else {
        return Err(denials::contradiction());
    };
    let hit = match known {
        EdgeKind::Set | EdgeKind::NotSet => {
            in_set(sets, set_count, ranges, range_count, p, symbol)?
        }
        _ => false,
    };
    Ok(by_kind(known, p, q, hit, symbol, min, max))
}
