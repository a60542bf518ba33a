// The edges, one after another: each is read, tested and laid into its record, and then becomes the last of its source's chain.
// From the Rust's atn/serialized.rs: the loop of `deserialize_edges`.

ghost use Rattle.std.specs.Prelude.{◌≡◌, ℕ, ◌+◌, ◌*◌, ◌≤◌, ◌<◌, ◌^◌, length};
ghost use Rattle.format.specs.Reading.{Table, Edges, run};
ghost use Rattle.laws.specs.Running.{turns};
ghost use Rattle.words.specs.Answers.{told};
ghost use Rattle.inplace.specs.Held.{held, with};
ghost use Rattle.inplace.specs.Links.{net, edge_one, edging};

use crate::edge::{self, Tested};
use crate::transition::decode_transition;
use format::edge::WIDTH;
use format::{Counts, Decoded};
use words::Step;

// The i-th edge, into its record and its chain. (Both tables are written, so they are no `Rows`; a struct of two `&mut` would say in each
// method that both references stay, and saves one parameter.)
fn edge_one(
    states: &mut [i32],
    edges: &mut [i32],
    i: usize,
    words: &[i32],
    at: usize,
    counts: &Counts,
) -> Step
    requires { (8 * counts.now.states ≤ length states.old) × (8 * i + 8 ≤ length edges.old) × (i < 2 ^ 31) }
    ensures { (rooms : Table → ℕ) → told result (net states.new edges.new) ≡ run (edge_one counts.now.states counts.now.sets i (net states.old edges.old)) words.now rooms at }
{
    let (Tested { kind, raw }, next) = edge::deserialize_edge(i, words, at, counts)?;
    let from = WIDTH * i;
    edges[from..from + WIDTH].copy_from_slice(&decode_transition(kind, raw));
    links::chain_edge(states, edges, i, raw.source);
    Ok(next)
}

// n edges.
fn fill_edges(
    states: &mut [i32],
    edges: &mut [i32],
    n: usize,
    words: &[i32],
    first: usize,
    counts: &Counts,
) -> Step
    requires { (8 * counts.now.states ≤ length states.old) × (8 * n ≤ length edges.old) × (n < 2 ^ 31) }
    ensures { (rooms : Table → ℕ) → told result (net states.new edges.new) ≡ run (turns n 0 (edge_one counts.now.states counts.now.sets) (net states.old edges.old)) words.now rooms first }
{
    let mut at = first;
    for i in 0..n {
        at = edge_one(states, edges, i, words, at, counts)?;
    }
    Ok(at)
}

// The count, and so many edges, after what was accepted.
pub fn count_edges(
    counts: Counts,
    words: &[i32],
    states: &mut [i32],
    edges: &mut [i32],
    room: usize,
) -> Decoded
    requires { (8 * counts.states ≤ length states.old) × (8 * room ≤ length edges.old) × (room ≤ 65536) }
    ensures { (rooms : Table → ℕ) → rooms Edges ≡ room → held result (net states.new edges.new) ≡ run (edging (with counts (net states.old edges.old))) words.now rooms counts.words }
{
    let (n, next) = words::read_count(words, counts.words, 23, room)?;
    let end = fill_edges(states, edges, n, words, next, &counts)?;
    Ok(Counts {
        words: end,
        edges: n,
        ..counts
    })
}
