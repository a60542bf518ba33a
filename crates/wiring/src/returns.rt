// Document 02, R-1, refusal 15: whether the edges behind the first o are the return edges of those, "by source state and then chain order".
// j is the number of the return edge that is to come next; m + 1, which no edge has, once one was another than it should be.

ghost use Rattle.std.specs.Prelude.{◌≡◌, ◌+◌, ◌*◌, ◌≤◌, ◌<◌, length};
ghost use Rattle.wiring.specs.Returns.{is_return, met, met_along, returns_fine};

use format::kinds::EdgeKind;
use format::{edge, state};
use tables::net::Net;

// Whether the edge j is an epsilon edge from `stop` to `follow`.
fn is_return(edges: &[i32], j: usize, stop: usize, follow: usize) -> bool
    requires { 8 * j + 8 ≤ length edges.now }
    ensures { result ≡ is_return edges.now j stop follow }
{
    let at = edge::WIDTH * j;
    tables::number_at(edges, at + edge::KIND) == EdgeKind::Epsilon as usize
        && tables::number_at(edges, at + edge::SOURCE) == stop
        && tables::number_at(edges, at + edge::TARGET) == follow
}

// Behind the return edge of the edge e, if it is one of the first o and has one.
fn meet(net: &Net, o: usize, e: usize, j: usize) -> usize
    requires { e < net.now.edges.count }
    ensures { result ≡ met net.now.states.count net.now.edges.count net.now.rules.count net.now.states.words.now net.now.edges.words.now net.now.rules.words.now o e j }
{
    if e >= o {
        return j;
    }
    let Some(stop) = links::return_stop(
        net.states.words,
        net.edges.words,
        net.rules.words,
        net.states.count,
        net.rules.count,
        e,
    ) else {
        return j;
    };
    let follow = tables::size_at(net.edges.words, edge::WIDTH * e + edge::Q);
    if j < net.edges.count && is_return(net.edges.words, j, stop, follow) {
        j + 1
    } else {
        net.edges.count + 1
    }
}

// Behind those of the first o edges in the chain of the state s.
fn meet_along(net: &Net, o: usize, s: usize, from: usize) -> usize
    requires { s < net.now.states.count }
    ensures { result ≡ met_along net.now.states.count net.now.edges.count net.now.rules.count net.now.states.words.now net.now.edges.words.now net.now.rules.words.now o s from }
{
    let mut j = from;
    let mut e = tables::number_at(net.states.words, state::WIDTH * s + state::FIRST);
    let count = tables::size_at(net.states.words, state::WIDTH * s + state::COUNT);
    for _ in 0..count {
        if e >= net.edges.count {
            return net.edges.count + 1;
        }
        j = meet(net, o, e, j);
        e = tables::number_at(net.edges.words, edge::WIDTH * e + edge::NEXT);
    }
    j
}

// All of them.
pub fn returns_fine(net: &Net, o: usize) -> bool
    requires { o ≤ net.now.edges.count }
    ensures { result ≡ returns_fine net.now.states.count net.now.edges.count net.now.rules.count net.now.states.words.now net.now.edges.words.now net.now.rules.words.now o }
{
    let mut j = o;
    for s in 0..net.states.count {
        j = meet_along(net, o, s, j);
    }
    j == net.edges.count
}
