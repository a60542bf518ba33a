// Which states are safe for their own rule (document 01, "Tail call"): a search in depth on four scratch words a state, its colour,
// its next edge, how many of its edges are left, and the state below it on the stack. It begins where it is asked of a state, since most
// states are never asked of. Colours stay from one search to the next, so that all searches together are linear in states and edges.
// From the Rust's atn/mod.rs: `plain_epsilon_tail_call`'s meaning.

ghost use Rattle.std.specs.Prelude.{◌≡◌, true, ◌↔◌, ◌+◌, ◌-◌, ◌*◌, ◌<◌, ◌≤◌, ◌^◌, pos, length, get_or, set, MatchOption};
ghost use Rattle.laws.specs.Own.{Own};
ghost use Rattle.tables.specs.Words.{number_at};
ghost use Rattle.atn.specs.Records.{edge_at};
ghost use Rattle.atn.specs.Search.{colour, colour_number, below, pushed, first_colour, Running, Stepped, Met};
ghost use Rattle.atn.specs.Networks.{states_in, edges_in, IdleIn};
ghost use Rattle.atn.specs.Visits.{plain_target};

use crate::network::Network;
use format::kinds::{EdgeKind, StateKind};
use format::{edge, rule, state};
use tables::SCRATCH;

// What is known of a state. The scratch holds its number.
#[derive(Clone, Copy)]
enum Colour {
    Unmet,
    OnStack,
    Safe,
    Unsafe,
}

// The words of a state's scratch behind its colour.
const NEXT: usize = 1;

const LEFT: usize = 2;

const BELOW: usize = 3;

// State s goes on the stack, above `below`: at its first edge, with all its edges left.
fn push(states: &[i32], scratch: &mut [i32], s: usize, below: usize)
    requires { (8 * s + 8 ≤ length states.now) × ((4 * s + 4 ≤ length scratch.old) × (below < 2 ^ 31)) }
    ensures { scratch.new ≡ pushed scratch.old s (get_or states.now (8 * s + 5) (pos 0)) (get_or states.now (8 * s + 7) (pos 0)) below }
{
    tables::store(scratch, SCRATCH * s, Colour::OnStack as usize);
    tables::copy_word(
        scratch,
        SCRATCH * s + NEXT,
        states,
        state::WIDTH * s + state::FIRST,
    );
    tables::copy_word(
        scratch,
        SCRATCH * s + LEFT,
        states,
        state::WIDTH * s + state::COUNT,
    );
    tables::store(scratch, SCRATCH * s + BELOW, below);
}

// State s passes its next edge e, and goes on to the one behind it.
fn pass(edges: &[i32], scratch: &mut [i32], s: usize, e: usize, left: usize)
    requires { (8 * e + 8 ≤ length edges.now) × ((4 * s + 4 ≤ length scratch.old) × ((0 < left) × (left < 2 ^ 31))) }
    ensures { scratch.new ≡ set (set scratch.old (4 * s + 1) (get_or edges.now (8 * e + 7) (pos 0))) (4 * s + 2) (pos (left - 1)) }
{
    tables::copy_word(
        scratch,
        SCRATCH * s + NEXT,
        edges,
        edge::WIDTH * e + edge::NEXT,
    );
    tables::store(scratch, SCRATCH * s + LEFT, left - 1);
}

// State s gets its last colour, and leaves the stack: answers the new top.
fn settle(scratch: &mut [i32], s: usize, colour: Colour) -> usize
    requires { 4 * s + 4 ≤ length scratch.old }
    ensures { (result ≡ below scratch.old s) × (scratch.new ≡ set scratch.old (4 * s) (pos (colour_number colour))) }
{
    let top = tables::number_at(scratch, SCRATCH * s + BELOW);
    tables::store(scratch, SCRATCH * s, colour as usize);
    top
}

// The target of edge e out of state s, where it is of type 1 and leads to a listed state of the same rule.
fn plain_target(network: &Network, s: usize, e: usize) -> Option<usize>
    requires listed { (s < network.now.state_count) × (e < network.now.edge_count) × (number_at network.now.states.now (8 * s + 1) < 2 ^ 31) }
    ensures { MatchOption result (network.now.state_count ≡ plain_target (states_in network.now) s (edge_at (edges_in network.now) e)) (λ t. (t ≡ plain_target (states_in network.now) s (edge_at (edges_in network.now) e)) × (t < network.now.state_count)) }
{
    let kind = tables::number_at(network.edges, edge::WIDTH * e + edge::KIND);
    if kind != EdgeKind::Epsilon as usize {
        return None;
    }
    let t = tables::number_at(network.edges, edge::WIDTH * e + edge::TARGET);
    if t >= network.state_count {
        return None;
    }
    let ours = tables::number_at(network.states, state::WIDTH * s + state::RULE);
    let theirs = tables::number_at(network.states, state::WIDTH * t + state::RULE);
    if theirs != ours {
        return None;
    }
    Some(t)
}

// The colour that state s gets when it is met; none yet where its edges decide.
fn first_colour(network: &Network, s: usize) -> Colour
    requires { s < network.now.state_count }
    ensures { colour_number result ≡ first_colour (states_in network.now) network.now.rule_count (number_at network.now.states.now (8 * s + 7)) s }
{
    let at = state::WIDTH * s;
    let rule = tables::number_at(network.states, at + state::RULE);
    if rule >= network.rule_count {
        return Colour::Unsafe;
    }
    let stop = tables::number_at(network.rules, rule::WIDTH * rule + rule::STOP);
    if stop >= network.state_count {
        return Colour::Unsafe;
    }
    if stop == s {
        return Colour::Safe;
    }
    let kind = tables::number_at(network.states, at + state::KIND);
    if kind == StateKind::RuleStop as usize {
        return Colour::Unsafe;
    }
    let count = tables::number_at(network.states, at + state::COUNT);
    if count == 0 {
        return Colour::Unsafe;
    }
    Colour::Unmet
}

// State t, which was not met before, is met from the top of the stack: its colour is known at once, or it goes on the stack.
// Answers the new top.
fn meet(network: &Network, scratch: &mut [i32], t: usize, top: usize) -> usize
    requires { (t < network.now.state_count) × (4 * network.now.state_count ≤ length scratch.old) × (top < 2 ^ 31) }
    ensures { Met (states_in network.now) network.now.rule_count network.now.states.now scratch.old scratch.new t top result }
{
    match first_colour(network, t) {
        Colour::Unmet => {
            push(network.states, scratch, t, top);
            t
        }
        colour => {
            tables::store(scratch, SCRATCH * t, colour as usize);
            top
        }
    }
}

// One step, at state s on top of the stack: answers the new top, the number of all states where the stack is empty.
fn visit(network: &Network, scratch: &mut [i32], s: usize) -> usize
    requires runs { Running (states_in network.now) network.now.rule_count (edges_in network.now) scratch.old s }
    requires listed { s < network.now.state_count }
    ensures { Stepped (states_in network.now) network.now.rule_count (edges_in network.now) scratch.old scratch.new result }
{
    let left = tables::number_at(scratch, SCRATCH * s + LEFT);
    if left == 0 {
        return settle(scratch, s, Colour::Safe);
    }
    let e = tables::number_at(scratch, SCRATCH * s + NEXT);
    let Some(t) = plain_target(network, s, e) else {
        return settle(scratch, s, Colour::Unsafe);
    };
    let colour = tables::number_at(scratch, SCRATCH * t);
    if colour == Colour::Safe as usize {
        pass(network.edges, scratch, s, e, left);
        return s;
    }
    if colour == Colour::Unmet as usize {
        return meet(network, scratch, t, s);
    }
    settle(scratch, s, Colour::Unsafe)
}

// The search from state s, which was not met before, until the stack is empty again. No Option says that it is empty, since the top is a
// word of the scratch: the number of all states, which numbers none.
fn search_from(network: &Network, scratch: &mut [i32], s: usize)
    requires idle { IdleIn network.now scratch.old }
    requires unmet { (s < network.now.state_count) × (colour scratch.old s ≡ 0) }
    ensures idle_again { IdleIn network.now scratch.new }
    ensures met { 0 < colour scratch.new s }
{
    let empty = network.state_count;
    let mut top = meet(network, scratch, s, empty);
    while top != empty {
        top = visit(network, scratch, top);
    }
}

// Whether state s is safe for its own rule: by its colour, where an earlier search met it.
pub fn is_safe(network: &Network, scratch: &mut [i32], s: usize) -> bool
    requires idle { IdleIn network.now scratch.old }
    requires listed { s < network.now.state_count }
    ensures own { result ≡ true ↔ Own (states_in network.now) network.now.rule_count (edges_in network.now) s }
    ensures idle_again { IdleIn network.now scratch.new }
{
    let before = tables::number_at(scratch, SCRATCH * s);
    if before != Colour::Unmet as usize {
        return before == Colour::Safe as usize;
    }
    search_from(network, scratch, s);
    tables::number_at(scratch, SCRATCH * s) == Colour::Safe as usize
}
