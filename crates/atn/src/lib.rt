// From the Rust's atn/mod.rs: the tail calls (document 01, "Return edges, precedence, tail calls").

#![tactic(auto)]

ghost use Rattle.std.specs.Prelude.{◌≡◌, ◌*◌, ◌≤◌, ◌<◌, length};
ghost use Rattle.format.specs.Links.{tail};
ghost use Rattle.format.specs.Tables.{zeros};
ghost use Rattle.atn.specs.Records.{states_of, edges_of, edge_at, Linked};
ghost use Rattle.atn.specs.Search.{Idle};
ghost use Rattle.atn.specs.Networks.{states_in, edges_in, IdleIn};
ghost use Rattle.atn.specs.Marks.{marked};

pub mod network;
mod search;

use format::kinds::EdgeKind;
use format::{edge, state};
use network::Network;
use tables::SCRATCH;

// The mark of a tail call.
const TAIL_CALL: usize = 2;

// Whether edge e is a rule edge with a safe follow state: most edges are none, and are passed over by their type.
// A follow state of another rule is never safe for the source's rule, so that the search for its own rule serves. (Inlined, so that a Network
// that is made for one edge is never laid out.)
#[inline(always)]
pub fn tail_call_follow_is_safe(network: &Network, scratch: &mut [i32], e: usize) -> bool
    requires idle { IdleIn network.now scratch.old }
    requires listed { e < network.now.edge_count }
    ensures value { result ≡ tail (states_in network.now) network.now.rule_count (edges_in network.now) (edge_at (edges_in network.now) e) }
    ensures idle_again { IdleIn network.now scratch.new }
{
    let at = edge::WIDTH * e;
    let kind = tables::number_at(network.edges, at + edge::KIND);
    if kind != EdgeKind::Rule as usize {
        return false;
    }
    let follow = tables::number_at(network.edges, at + edge::Q);
    if follow >= network.state_count {
        return false;
    }
    let source = tables::number_at(network.edges, at + edge::SOURCE);
    let ours = tables::number_at(network.states, state::WIDTH * source + state::RULE);
    let theirs = tables::number_at(network.states, state::WIDTH * follow + state::RULE);
    if ours != theirs {
        return false;
    }
    search::is_safe(network, scratch, follow)
}

// The mark 2 on every tail call. (Its tables are no Network, since edges are marked between two searches, each of which borrows them anew.)
fn mark_tail_calls(
    states: &[i32],
    edges: &mut [i32],
    rules: &[i32],
    scratch: &mut [i32],
    n: usize,
    m: usize,
    k: usize,
)
    requires linked { Linked states.now edges.old rules.now n m k }
    requires idle { Idle (states_of n states.now) k (edges_of m edges.old) scratch.old }
    ensures { edges.new ≡ marked n k m states.now edges.old }
{
    for e in 0..m {
        let network = Network {
            states,
            edges,
            rules,
            state_count: n,
            edge_count: m,
            rule_count: k,
        };
        if tail_call_follow_is_safe(&network, scratch, e) {
            tables::store(edges, edge::WIDTH * e + edge::MARK, TAIL_CALL);
        }
    }
}

// Marks the tail calls of n states, m edges and k rules. The Rust searches anew for each rule edge, with a work list that four words
// a state cannot hold; but a state has one rule, and its own rule's stop, so that what one search finds serves all rule edges.
// The scratch comes zero, so that no state is taken for one that was met. Only four words a state are used, and cleared again.
// (Its parameters stay: docs/PROMISES.md names it, and a Network would ask for edges that are not written.)
pub fn identify_tail_calls(
    states: &[i32],
    edges: &mut [i32],
    rules: &[i32],
    scratch: &mut [i32],
    n: usize,
    m: usize,
    k: usize,
)
    requires linked { Linked states.now edges.old rules.now n m k × (4 * n ≤ length scratch.old) }
    requires scratch_value { scratch.old ≡ zeros (length scratch.old) }
    ensures edges_after { edges.new ≡ marked n k m states.now edges.old }
    ensures scratch_after { scratch.new ≡ zeros (length scratch.old) }
{
    let used = SCRATCH * n;
    mark_tail_calls(states, edges, rules, &mut scratch[..used], n, m, k);
    scratch[..used].fill(0);
}
