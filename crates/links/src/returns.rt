// Return edges: "for each rule edge, by source state and then chain order, let R be the rule of its target state. If target, R
// and R's stop all exist, an epsilon edge from that stop to the follow state is added".
// From the Rust's atn/serialized.rs: the return edges of `deserialize_edges`.

ghost use Rattle.std.specs.Prelude.{◌≡◌, List, ℕ, ◌+◌, ◌*◌, ◌<◌, ◌≤◌, ◌^◌, ltb, ℤ, pos, length, unwrap_or, Some, None, Ok};
ghost use Rattle.std.specs.Option.{ForSome};
ghost use Rattle.format.specs.Reading.{Table, Edges, run, pick};
ghost use Rattle.format.specs.Sections.{size, edge_of};
ghost use Rattle.inplace.specs.Held.{held, with};
ghost use Rattle.inplace.specs.Rows.{word_of, edge_row};
ghost use Rattle.inplace.specs.Links.{net as tables_of, linked, growing, returning, returns_of, returned, returns_along, returns_from, returns as returnsIn, derived_counted};
ghost use Rattle.links.specs.Lent.{Listed, LentTo};
ghost use Rattle.links.specs.Returns.{return_stop};

use format::kinds::EdgeKind;
use format::reason::Reason;
use format::{Counts, Decoded, Spot, edge, rule, state};
use tables::net::Net;
use tables::rows::Rows;

// The mark of an edge that was not read.
const DERIVED: i32 = 1;

// The number x, if it is one of n.
fn among(n: usize, x: usize) -> Option<usize>
    ensures { result ≡ pick (ltb x n) (Some x) None }
{
    (x < n).then_some(x)
}

// The state from which the return edge of the edge e starts. (No Net: any edge may be asked of whose record is there.)
pub fn return_stop(
    states: &[i32],
    edges: &[i32],
    rules: &[i32],
    n: usize,
    k: usize,
    e: usize,
) -> Option<usize>
    requires { (Listed 8 n (length states.now)) × (8 * e + 8 ≤ length edges.now) × (Listed 3 k (length rules.now)) }
    ensures starts { unwrap_or result n ≡ return_stop n k rules.now (tables_of states.now edges.now) e }
    ensures listed { ForSome result (λ t. t < n) }
{
    let at = edge::WIDTH * e;
    if tables::number_at(edges, at + edge::KIND) != EdgeKind::Rule as usize {
        return None;
    }
    let target = among(n, tables::number_at(edges, at + edge::TARGET))?;
    let rule = among(
        k,
        tables::number_at(states, state::WIDTH * target + state::RULE),
    )?;
    among(n, tables::number_at(rules, rule::WIDTH * rule + rule::STOP))
}

// Whether the edge e has a return edge.
fn has_return(net: &Net, e: usize) -> bool
    requires { e < net.now.edges.count }
    ensures { result ≡ returning net.now.states.count net.now.rules.count net.now.rules.words.now (tables_of net.now.states.words.now net.now.edges.words.now) e }
{
    return_stop(
        net.states.words,
        net.edges.words,
        net.rules.words,
        net.states.count,
        net.rules.count,
        e,
    )
    .is_some()
}

// How many of the edges have one. Few do, and the sum is left alone for the others.
fn count_returns(net: &Net) -> usize
    ensures counted { result ≡ returns_of net.now.states.count net.now.rules.count net.now.rules.words.now (tables_of net.now.states.words.now net.now.edges.words.now) net.now.edges.count }
    ensures few { result ≤ net.now.edges.count }
{
    let mut d: usize = 0;
    for i in 0..net.edges.count {
        if has_return(net, i) {
            d += 1;
        }
    }
    d
}

// The words of a return edge, before its next is known.
fn write_return(part: &mut [i32], stop: usize, follow: usize)
    requires { (length part.old ≡ 8) × (stop < 2 ^ 31) × (follow < 2 ^ 31) }
    ensures { part.new ≡ edge_row 1 (edge_of 1 stop follow (pos 0) (pos 0) (pos 0)) }
{
    let kind = EdgeKind::Epsilon as i32;
    let (stop, follow) = (words::word_of(stop), words::word_of(follow));
    part.copy_from_slice(&[kind, stop, follow, 0, 0, 0, DERIVED, -1]);
}

// The return edge from a stop to a follow state, as the i-th edge.
fn link_return(states: &mut [i32], edges: &mut [i32], i: usize, stop: usize, follow: usize)
    requires { (8 * stop + 8 ≤ length states.old) × (8 * i + 8 ≤ length edges.old) × (i < 2 ^ 31) × (stop < 2 ^ 31) × (follow < 2 ^ 31) }
    ensures { tables_of states.new edges.new ≡ linked i 1 (edge_of 1 stop follow (pos 0) (pos 0) (pos 0)) (tables_of states.old edges.old) }
{
    let from = edge::WIDTH * i;
    write_return(&mut edges[from..from + edge::WIDTH], stop, follow);
    crate::chain_edge(states, edges, i, stop);
}

// The return edge of the edge e, if it has one; answers how many edges there are then. (The tables and their counts are no struct here: one
// that holds `&mut` tables would say in each method that both references and three numbers stay, five facts in place of the three below.)
fn add_return(
    states: &mut [i32],
    edges: &mut [i32],
    rules: &[i32],
    n: usize,
    k: usize,
    room: usize,
    e: usize,
    m: usize,
) -> usize
    requires { (Listed 8 n (length states.old)) × (Listed 8 room (length edges.old)) × (Listed 3 k (length rules.now)) × (m ≤ room) × (e < m) }
    ensures { (growing (tables_of states.new edges.new) result ≡ returned room n k rules.now e (growing (tables_of states.old edges.old) m)) × (result ≤ room) }
{
    match return_stop(states, edges, rules, n, k, e) {
        Some(stop) if m < room => {
            let follow = tables::size_at(edges, edge::WIDTH * e + edge::Q);
            link_return(states, edges, m, stop, follow);
            m + 1
        }
        _ => m,
    }
}

// Those of the edges in the chain of the state s.
fn add_along(
    states: &mut [i32],
    edges: &mut [i32],
    rules: &[i32],
    n: usize,
    k: usize,
    room: usize,
    s: usize,
    before: usize,
) -> usize
    requires { (Listed 8 n (length states.old)) × (Listed 8 room (length edges.old)) × (Listed 3 k (length rules.now)) × (before ≤ room) × (s < n) }
    ensures { (growing (tables_of states.new edges.new) result ≡ returns_along room n k rules.now (size (word_of 8 states.old s 7)) (word_of 8 states.old s 5) (growing (tables_of states.old edges.old) before)) × (result ≤ room) }
{
    let mut m = before;
    let mut e = tables::number_at(states, state::WIDTH * s + state::FIRST);
    for _ in 0..tables::size_at(states, state::WIDTH * s + state::COUNT) {
        if e >= m {
            return m;
        }
        m = add_return(states, edges, rules, n, k, room, e, m);
        e = tables::number_at(edges, edge::WIDTH * e + edge::NEXT);
    }
    m
}

// Those of all edges, state by state.
fn add_all(
    states: &mut [i32],
    edges: &mut [i32],
    rules: &[i32],
    n: usize,
    k: usize,
    room: usize,
    before: usize,
)
    requires { (Listed 8 n (length states.old)) × (Listed 8 room (length edges.old)) × (Listed 3 k (length rules.now)) × (before ≤ room) }
    ensures { tables_of states.new edges.new ≡ (returns_from room n k rules.now n (growing (tables_of states.old edges.old) before)).tables }
{
    let mut m = before;
    for s in 0..n {
        m = add_along(states, edges, rules, n, k, room, s, m);
    }
}

// All of them, or the refusal, after what was accepted.
pub fn grow(
    counts: Counts,
    states: &mut [i32],
    edges: &mut [i32],
    rules: &[i32],
    room: usize,
) -> Decoded
    requires { LentTo (Ok counts) room (length states.old) (length edges.old) (length rules.now) }
    ensures says { (ws : List ℤ) (rooms : Table → ℕ) → rooms Edges ≡ room → held result (tables_of states.new edges.new) ≡ run (returnsIn room rules.now (with counts (tables_of states.old edges.old))) ws rooms counts.words }
    ensures lent { LentTo result room (length states.new) (length edges.new) (length rules.now) }
{
    let m = counts.edges;
    let listed_states = Rows {
        words: states,
        count: counts.states,
    };
    let listed_edges = Rows {
        words: edges,
        count: m,
    };
    let listed_rules = Rows {
        words: rules,
        count: counts.rules,
    };
    let d = count_returns(&Net {
        states: listed_states,
        edges: listed_edges,
        rules: listed_rules,
    });
    if m + d > room {
        let spot = Spot {
            field: 23,
            record: 0,
        };
        return Err(words::refused(
            Reason::NoRoom as u32,
            spot,
            counts.words,
            words::word_of(m + d),
        ));
    }
    add_all(states, edges, rules, counts.states, counts.rules, room, m);
    Ok(Counts {
        edges: m + d,
        derived: d,
        ..counts
    })
}
