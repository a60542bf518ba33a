// Document 02, R-1, refusal 15: the states, the edges and the rules; c sets are listed.

ghost use Rattle.std.specs.Prelude.{◌≡◌, ◌*◌, ◌≤◌, length};
ghost use Rattle.atn.specs.Records.{Linked};
ghost use Rattle.wiring.specs.Marks.{marks_fine};
ghost use Rattle.serializer.specs.Tests.{joined_in, marked_in, linked_in};

use atn::network::Network;
use checking::passes;
use format::rule;
use tables::net::Net;
use wiring::{chains, decisions, marks, returns, stops};

// So many states and rules are served by the small array.
const SMALL: usize = 1024;

// Words for the rules' stops, three a rule, and then for the search, four a state. There are 65,536 of either at most; most dialects have
// no more than 1,024, and do not wait until a mebibyte is laid out.
const LARGE_SPACE: usize = 262144;

const SMALL_SPACE: usize = 4096;

// Whether they fit together. The scratch is for the rules' stops, three words a rule.
fn joined(net: &Net, c: usize, scratch: &mut [i32]) -> bool
    requires { 3 * net.now.rules.count ≤ length scratch.old }
    ensures { result ≡ joined_in net.now.states.count net.now.edges.count net.now.rules.count c net.now.states.words.now net.now.edges.words.now net.now.rules.words.now }
{
    let used = rule::WIDTH * net.rules.count;
    passes::states_fine(&net.states)
        && passes::edges_fine(&net.edges, net.states.count)
        && passes::all_arguments_fine(&net.edges, c)
        && passes::starts_fine(&net.rules)
        && chains::chains_fine(net)
        && stops::stops_fine(net, &mut scratch[..used])
}

// The marks, with words for the search that are cleared first: four a state.
fn marks_fine(net: &Net, o: usize, scratch: &mut [i32]) -> bool
    requires linked { Linked net.now.states.words.now net.now.edges.words.now net.now.rules.words.now net.now.states.count net.now.edges.count net.now.rules.count }
    requires room { 4 * net.now.states.count ≤ length scratch.old }
    ensures { result ≡ marks_fine net.now.states.count net.now.edges.count net.now.rules.count net.now.states.words.now net.now.edges.words.now o }
{
    tables::clear(scratch);
    let network = Network {
        states: net.states.words,
        edges: net.edges.words,
        rules: net.rules.words,
        state_count: net.states.count,
        edge_count: net.edges.count,
        rule_count: net.rules.count,
    };
    marks::marks_fine(&network, scratch, o)
}

// Whether what follows from them is as it should be: return edges, marks and precedence decisions.
fn marked(net: &Net, scratch: &mut [i32]) -> bool
    requires linked { Linked net.now.states.words.now net.now.edges.words.now net.now.rules.words.now net.now.states.count net.now.edges.count net.now.rules.count }
    requires room { 4 * net.now.states.count ≤ length scratch.old }
    ensures { result ≡ marked_in net.now.states.count net.now.edges.count net.now.rules.count net.now.states.words.now net.now.edges.words.now net.now.rules.words.now }
{
    let own = marks::own_count(&net.edges);
    let used = tables::SCRATCH * net.states.count;
    returns::returns_fine(net, own)
        && marks_fine(net, own, &mut scratch[..used])
        && decisions::decisions_fine(net)
}

// Both; the scratch is laid out here, and lent to the one and then to the other. It is on the stack as long as this runs, so that no
// caller's part of the stack holds two of them.
#[inline(never)]
fn linked_within<const SPACE: usize>(net: &Net, c: usize) -> bool
    requires rules { 3 * net.now.rules.count ≤ SPACE }
    requires states { 4 * net.now.states.count ≤ SPACE }
    requires sets { c ≤ 65536 }
    requires space { SPACE ≤ 262144 }
    ensures { result ≡ linked_in net.now.states.count net.now.edges.count net.now.rules.count c net.now.states.words.now net.now.edges.words.now net.now.rules.words.now }
{
    let mut space = [0; SPACE];
    let scratch: &mut [i32] = &mut space;
    joined(net, c, scratch) && marked(net, scratch)
}

// Whether the states, the edges and the rules are linked as a decode links them.
pub fn linked(net: &Net, c: usize) -> bool
    requires { c ≤ 65536 }
    ensures { result ≡ linked_in net.now.states.count net.now.edges.count net.now.rules.count c net.now.states.words.now net.now.edges.words.now net.now.rules.words.now }
{
    if net.states.count <= SMALL && net.rules.count <= SMALL {
        linked_within::<SMALL_SPACE>(net, c)
    } else {
        linked_within::<LARGE_SPACE>(net, c)
    }
}
