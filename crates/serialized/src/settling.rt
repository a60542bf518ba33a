// What follows the sections: the tail calls of what was accepted, and zeros alone after a refusal.
// From the Rust's atn/serialized.rs: the end of `deserialize`.

ghost use Rattle.std.specs.Prelude.{◌≡◌, ◌≤◌};
ghost use Rattle.serialized.specs.Answered.{read_from, Ready, Settled};
ghost use Rattle.serialized.specs.Kept.{tables_of, Kept};

use crate::lent::Lent;
use format::{Counts, Decoded};

// The counts, with the words read counted from the first place.
fn read_from(at: usize, counts: Counts) -> Counts
    requires { at ≤ counts.words }
    ensures { result ≡ read_from at counts }
{
    Counts {
        words: counts.words - at,
        ..counts
    }
}

// An acceptance's tail calls are marked, and its words counted from the first place; a refusal leaves all tables cleared. (Tables are
// borrowed one by one, as in `filling`.)
pub fn settle(sofar: Decoded, at: usize, lent: &mut Lent) -> Decoded
    requires { Ready at sofar (tables_of lent.old) }
    ensures kept { Kept lent.old lent.new }
    ensures settled { Settled at sofar (tables_of lent.old) result (tables_of lent.new) }
{
    match sofar {
        Ok(counts) => {
            let states = &mut *lent.states;
            let edges = &mut *lent.edges;
            let rules = &mut *lent.rules;
            let scratch = &mut *lent.scratch;
            let (n, m, k) = (counts.states, counts.edges, counts.rules);
            atn::identify_tail_calls(states, edges, rules, scratch, n, m, k);
            Ok(read_from(at, counts))
        }
        Err(refusal) => {
            lent.clear();
            Err(refusal)
        }
    }
}
