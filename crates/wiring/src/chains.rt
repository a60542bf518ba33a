// Document 02, R-1, refusal 15: whether first edge, last edge, edge count and next edge are those of the chains (document 01: "A state's
// edges are chained in word order"). Each state's edges go up, and all states' counts together are all edges, so that none was missed.

ghost use Rattle.std.specs.Prelude.{◌≡◌, ◌&&◌, ◌<◌, eqb, leb, ltb};
ghost use Rattle.format.specs.Sections.{none, same};
ghost use Rattle.rewriting.specs.Climbs as spec;
ghost use Rattle.wiring.specs.Chains.{source_in, next_in, chain_fine, chains_fine};

use format::{edge, state};
use tables::net::Net;

// Whether the edge j can be the next of the state s: none below `low`, one that is listed, and from s.
fn stands(net: &Net, s: usize, low: usize, j: usize) -> bool
    ensures { result ≡ (leb low j && ltb j net.now.edges.count && eqb (source_in net.now.edges.words.now j) s) }
{
    low <= j
        && j < net.edges.count
        && tables::number_at(net.edges.words, edge::WIDTH * j + edge::SOURCE) == s
}

// Whether a chain ends here: no edge is next, and the last was the state's last.
fn ends(next: i32, last: i32, before: i32) -> bool
    ensures { result ≡ (same next none && same last before) }
{
    next == -1 && last == before
}

// The chain of the state s: so many edges from `first` on.
fn climbs(net: &Net, s: usize, first: i32, last: i32, count: usize) -> bool
    ensures { result ≡ spec.climbs net.now.edges.count (source_in net.now.edges.words.now) (next_in net.now.edges.words.now) s last count 0 first none }
{
    let mut low: usize = 0;
    let mut next = first;
    let mut before: i32 = -1;
    for _ in 0..count {
        let j = tables::number_of(next);
        if !stands(net, s, low, j) {
            return false;
        }
        before = next;
        low = j + 1;
        next = net.edges.words[edge::WIDTH * j + edge::NEXT];
    }
    ends(next, last, before)
}

// The chain of the state s, by its record.
fn chain_fine(net: &Net, s: usize) -> bool
    requires { s < net.now.states.count }
    ensures { result ≡ chain_fine net.now.edges.count net.now.states.words.now net.now.edges.words.now s }
{
    let at = state::WIDTH * s;
    let first = net.states.words[at + state::FIRST];
    let last = net.states.words[at + state::LAST];
    match words::index_of(net.states.words[at + state::COUNT]) {
        Some(count) => climbs(net, s, first, last, count),
        None => false,
    }
}

// All chains.
pub fn chains_fine(net: &Net) -> bool
    ensures { result ≡ chains_fine net.now.states.count net.now.edges.count net.now.states.words.now net.now.edges.words.now }
{
    let mut total: usize = 0;
    for s in 0..net.states.count {
        if !chain_fine(net, s) {
            return false;
        }
        total += tables::size_at(net.states.words, state::WIDTH * s + state::COUNT);
    }
    total == net.edges.count
}
