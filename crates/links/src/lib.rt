// Edges as chains (document 01, "A state's edges are chained ..") and what follows from them ("Return edges, precedence, tail calls").
// From the Rust's atn/serialized.rs: the second half of `deserialize_edges`, and `mark_precedence_decisions`; `add_transition` of atn/mod.rs.

#![tactic(auto)]

ghost use Rattle.std.specs.Prelude.{◌≡◌, List, ℕ, ◌+◌, ◌*◌, ◌<◌, ◌≤◌, ◌^◌, ℤ, length};
ghost use Rattle.format.specs.Reading.{Table, Edges};
ghost use Rattle.inplace.specs.Held.{held, onward};
ghost use Rattle.inplace.specs.Links.{net, chained, returns as returning};
ghost use Rattle.inplace.specs.Whole.{deciding};
ghost use Rattle.links.specs.Lent.{LentTo, CountedIn};

use format::Decoded;

mod chains;
mod precedence;
mod returns;

// What a return edge and a precedence decision hang on, by itself: what is written from tables is held to it.
pub use precedence::decides;
pub use returns::return_stop;

// The edge i becomes the last of its source's chain.
pub fn chain_edge(states: &mut [i32], edges: &mut [i32], i: usize, source: usize)
    requires { (8 * source + 8 ≤ length states.old) × (8 * i + 8 ≤ length edges.old) × (i < 2 ^ 31) }
    ensures { net states.new edges.new ≡ chained i source (net states.old edges.old) }
{
    chains::first_or(states, edges, i, source);
    chains::last_of(states, i, source);
}

// The return edges of all rule edges, behind the edges that were read; refusal 12 where there is no room for them.
pub fn add_return_edges(
    sofar: Decoded,
    states: &mut [i32],
    edges: &mut [i32],
    rules: &[i32],
    room: usize,
) -> Decoded
    requires { LentTo sofar room (length states.old) (length edges.old) (length rules.now) }
    ensures says { (ws : List ℤ) (rooms : Table → ℕ) → rooms Edges ≡ room → held result (net states.new edges.new) ≡ onward (returning room rules.now) ws rooms (held sofar (net states.old edges.old)) }
    ensures lent { LentTo result room (length states.new) (length edges.new) (length rules.now) }
{
    returns::grow(sofar?, states, edges, rules, room)
}

// Flag 4 on every state that is a precedence decision.
pub fn mark_precedence_decisions(
    sofar: Decoded,
    states: &mut [i32],
    edges: &[i32],
    rules: &[i32],
) -> Decoded
    requires { CountedIn sofar (length states.old) (length edges.now) (length rules.now) }
    ensures { (ws : List ℤ) (rooms : Table → ℕ) → held result states.new ≡ onward (deciding rules.now edges.now) ws rooms (held sofar states.old) }
{
    let counts = sofar?;
    precedence::mark_all(
        states,
        edges,
        rules,
        counts.states,
        counts.edges,
        counts.rules,
    );
    Ok(counts)
}
