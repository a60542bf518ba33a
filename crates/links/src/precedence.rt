// Precedence decisions: "Flag 4 is set on a type 10 state if its rule exists, that rule's start is a listed state with flag 2,
// its last edge's target is a state of type 12, and that state's first edge's target is a state of type 7."
// From the Rust's atn/serialized.rs: `mark_precedence_decisions`.

ghost use Rattle.std.specs.Prelude.{◌≡◌, ◌+◌, ◌*◌, ◌<◌, ◌≤◌, ℤ, length, unwrap_or};
ghost use Rattle.std.specs.Option.{ForSome};
ghost use Rattle.inplace.specs.Rows.{word_of};
ghost use Rattle.inplace.specs.Links.{flag_two, decides_at, decided_in};
ghost use Rattle.tables.specs.Words.{number_of};
ghost use Rattle.links.specs.Lent.{Listed};
ghost use Rattle.links.specs.Precedence.{landing, recursive_at, loops_at};
ghost use Rattle.format.specs.Kinds.{state_number};

use format::kinds::StateKind;
use format::{edge, rule, state};
use tables::net::Net;
use tables::rows::Rows;

// "Flags: 1 non-greedy, 2 left-recursive, 4 precedence decision".
const LEFT_RECURSIVE: usize = 2;

const PRECEDENCE: usize = 4;

// Flag 2 is set in the flags of the state s.
fn flag_two(states: &[i32], s: usize) -> bool
    requires { 8 * s + 8 ≤ length states.now }
    ensures { result ≡ flag_two (word_of 8 states.now s 4) }
{
    tables::size_at(states, state::WIDTH * s + state::FLAGS) / LEFT_RECURSIVE % 2 == 1
}

// The state s is of type 10, and its rule starts at a state with flag 2.
#[inline(always)]
fn recursive(net: &Net, s: usize) -> bool
    requires { s < net.now.states.count }
    ensures { result ≡ recursive_at net.now.states.count net.now.rules.count net.now.rules.words.now net.now.states.words.now s }
{
    let kind = tables::number_at(net.states.words, state::WIDTH * s + state::KIND);
    if kind != StateKind::StarLoopEntry as usize {
        return false;
    }
    let rule = tables::number_at(net.states.words, state::WIDTH * s + state::RULE);
    if rule >= net.rules.count {
        return false;
    }
    let start = tables::number_at(net.rules.words, rule::WIDTH * rule + rule::START);
    start < net.states.count && flag_two(net.states.words, start)
}

// The target of the edge e, if it is a state of that type.
fn target_of(net: &Net, e: usize, kind: StateKind) -> Option<usize>
    ensures lands { (z : ℤ) → e ≡ number_of z → unwrap_or result net.now.states.count ≡ landing net.now.states.count net.now.edges.count net.now.states.words.now net.now.edges.words.now z (state_number kind) }
    ensures listed { ForSome result (λ t. t < net.now.states.count) }
{
    if e >= net.edges.count {
        return None;
    }
    let target = tables::number_at(net.edges.words, edge::WIDTH * e + edge::TARGET);
    let found = target < net.states.count
        && tables::number_at(net.states.words, state::WIDTH * target + state::KIND)
            == kind as usize;
    found.then_some(target)
}

// The last edge of the state s leads to a state of type 12, and the first edge of that one to a state of type 7.
fn loops(net: &Net, s: usize) -> bool
    requires { s < net.now.states.count }
    ensures { result ≡ loops_at net.now.states.count net.now.edges.count net.now.edges.words.now net.now.states.words.now s }
{
    let last = tables::number_at(net.states.words, state::WIDTH * s + state::LAST);
    let Some(target) = target_of(net, last, StateKind::LoopEnd) else {
        return false;
    };
    let first = tables::number_at(net.states.words, state::WIDTH * target + state::FIRST);
    target_of(net, first, StateKind::RuleStop).is_some()
}

// The state s is a precedence decision. (Inlined, so that a Net that is made for one question is never laid out.)
#[inline(always)]
pub fn decides(net: &Net, s: usize) -> bool
    requires { s < net.now.states.count }
    ensures { result ≡ decides_at net.now.states.count net.now.edges.count net.now.rules.count net.now.rules.words.now net.now.edges.words.now net.now.states.words.now s }
{
    recursive(net, s) && loops(net, s)
}

// Flag 4 on every state that is a precedence decision, of n states, m edges and k rules.
pub fn mark_all(states: &mut [i32], edges: &[i32], rules: &[i32], n: usize, m: usize, k: usize)
    requires { (Listed 8 n (length states.old)) × (Listed 8 m (length edges.now)) × (Listed 3 k (length rules.now)) }
    ensures { states.new ≡ decided_in n m k rules.now edges.now n states.old }
{
    for s in 0..n {
        let listed_states = Rows {
            words: states,
            count: n,
        };
        let listed_edges = Rows {
            words: edges,
            count: m,
        };
        let listed_rules = Rows {
            words: rules,
            count: k,
        };
        let net = Net {
            states: listed_states,
            edges: listed_edges,
            rules: listed_rules,
        };
        if decides(&net, s) {
            bits::set_flag(states, s, PRECEDENCE);
        }
    }
}
