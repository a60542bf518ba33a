// The questions about lent tables: document 01, "Questions", at the end of "Refusal numbers". The tables may be any words, and
// the counts any numbers; nothing is written. (The fourth, lookup in a lent list of ranges, is `ranges::contains`.)

#![tactic(auto)]

mod chain;
mod denials;
mod matching;
mod parts;
mod records;

ghost use Rattle.std.specs.Prelude.{◌≡◌};
ghost use Rattle.format.specs.Questions.{nth_edge, set_part, part_of};
ghost use Rattle.format.specs.Questions as spec;

use format::{Matching, NthEdge, SetPart, edge, range, set, state};

// "the number of a state's n-th edge (n from 0)"
pub fn nth_edge(
    states: &[i32],
    state_count: usize,
    edges: &[i32],
    edge_count: usize,
    state: i32,
    n: i32,
) -> NthEdge
    ensures { result ≡ nth_edge states.now state_count edges.now edge_count state n }
{
    records::check(states, state::WIDTH, state_count)?;
    records::check(edges, edge::WIDTH, edge_count)?;
    if !records::listed(state_count, state) {
        return Err(denials::missing(state));
    }
    let Some(steps) = words::index_of(n) else {
        return Err(denials::missing(n));
    };
    if records::word(states, state::WIDTH, state, state::COUNT) <= n {
        return Err(denials::missing(n));
    }
    let first = records::word(states, state::WIDTH, state, state::FIRST);
    chain::walk(edges, edge_count, steps, first)
}

// "a set's ranges as a part of the lent table": the part's first word and its length in words, or why not. This is the one place
// that finds a set's part.
pub fn set_part(
    sets: &[i32],
    set_count: usize,
    ranges: &[i32],
    range_count: usize,
    set: i32,
) -> SetPart
    ensures { result ≡ set_part sets.now set_count ranges.now range_count set }
{
    records::check(sets, set::WIDTH, set_count)?;
    records::check(ranges, range::WIDTH, range_count)?;
    if !records::listed(set_count, set) {
        return Err(denials::missing(set));
    }
    let first = records::word(sets, set::WIDTH, set, set::FIRST);
    let count = records::word(sets, set::WIDTH, set, set::COUNT);
    parts::part(first, count, range_count)
}

// The part itself: empty where `set_part` refuses.
#[tactic(auto, using(crate::proofs::Inside::room))]
pub fn set_ranges<'a>(
    sets: &[i32],
    set_count: usize,
    ranges: &'a [i32],
    range_count: usize,
    set: i32,
) -> &'a [i32]
    ensures { result.now ≡ part_of ranges.now (set_part sets.now set_count ranges.now range_count set) }
{
    match set_part(sets, set_count, ranges, range_count, set) {
        Ok((from, length)) => &ranges[from..from + length],
        Err(_) => &ranges[..0],
    }
}

// "whether an edge matches a symbol given min and max"
pub fn matches(
    edges: &[i32],
    edge_count: usize,
    sets: &[i32],
    set_count: usize,
    ranges: &[i32],
    range_count: usize,
    edge: i32,
    symbol: i32,
    min: i32,
    max: i32,
) -> Matching
    ensures { result ≡ spec.matches edges.now edge_count sets.now set_count ranges.now range_count edge symbol min max }
{
    records::check(edges, edge::WIDTH, edge_count)?;
    records::check(sets, set::WIDTH, set_count)?;
    records::check(ranges, range::WIDTH, range_count)?;
    if !records::listed(edge_count, edge) {
        return Err(denials::missing(edge));
    }
    let kind = records::word(edges, edge::WIDTH, edge, edge::KIND);
    let p = records::word(edges, edge::WIDTH, edge, edge::P);
    let q = records::word(edges, edge::WIDTH, edge, edge::Q);
    matching::meets(
        kind,
        p,
        q,
        sets,
        set_count,
        ranges,
        range_count,
        symbol,
        min,
        max,
    )
}
