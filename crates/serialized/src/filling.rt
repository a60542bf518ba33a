// The sections in word order, over tables that were cleared (the Rust's `deserialize`, up to its tail calls).
// From the Rust's atn/serialized.rs: `deserialize`.

ghost use Rattle.std.specs.Prelude.{◌≡◌, ℕ};
ghost use Rattle.format.specs.Reading.{Table, run};
ghost use Rattle.inplace.specs.Held.{held};
ghost use Rattle.inplace.specs.Whole.{filling};
ghost use Rattle.serialized.specs.Rooms.{Are, Suits};
ghost use Rattle.serialized.specs.Kept.{tables_of, Kept};

use crate::lent::{Lent, Rooms};
use format::Decoded;

// Each section goes on from what the one before it came to, and passes a refusal on.
pub fn fill(words: &[i32], at: usize, rooms: Rooms, lent: &mut Lent) -> Decoded
    requires { Suits rooms (tables_of lent.old) }
    ensures kept { Kept lent.old lent.new }
    ensures filled { (room : Table → ℕ) → Are room rooms → held result (tables_of lent.new) ≡ run (filling rooms.edges (tables_of lent.old)) words.now room at }
{
    // A call is lent several tables at once, so each is borrowed by itself.
    let states = &mut *lent.states;
    let edges = &mut *lent.edges;
    let ranges = &mut *lent.ranges;
    let sets = &mut *lent.sets;
    let rules = &mut *lent.rules;
    let modes = &mut *lent.modes;
    let decisions = &mut *lent.decisions;
    let actions = &mut *lent.actions;
    let sofar = sections::deserialize_header(words, at);
    let sofar = sections::deserialize_states(sofar, words, states, rooms.states);
    let sofar = sections::deserialize_non_greedy_states(sofar, words, states);
    let sofar = sections::deserialize_precedence_states(sofar, words, states);
    let sofar = sections::deserialize_rules(sofar, words, rules, rooms.rules);
    let sofar = sections::find_rule_stops(sofar, states, rules);
    let sofar = sections::deserialize_modes(sofar, words, modes, rooms.modes);
    let sofar = sets::deserialize_sets(sofar, words, ranges, sets, rooms.ranges, rooms.sets);
    let sofar = edges::deserialize_edges(sofar, words, states, edges, rooms.edges);
    let sofar = links::add_return_edges(sofar, states, edges, rules, rooms.edges);
    let sofar = sections::deserialize_decisions(sofar, words, decisions, rooms.decisions);
    let sofar = sections::deserialize_lexer_actions(sofar, words, actions, rooms.actions);
    links::mark_precedence_decisions(sofar, states, edges, rules)
}
