// From the Rust's atn/serialized.rs: `AtnDeserializer::deserialize`, over lent tables (document 01, "Lent tables" and "Port order").

#![tactic(auto)]

ghost use Rattle.inplace.specs.Whole.{tables};
ghost use Rattle.serialized.specs.Answered.{Decodes};

use format::Decoded;
use lent::Lent;

mod filling;
mod lent;
mod settling;

// Decodes the words from a place on. Whatever the tables held, they hold the definition's words afterwards: an accepted list's records and
// zeros behind them, or, on a refusal, zeros alone.
pub fn deserialize(
    words: &[i32],
    at: usize,
    states: &mut [i32],
    edges: &mut [i32],
    ranges: &mut [i32],
    sets: &mut [i32],
    rules: &mut [i32],
    modes: &mut [i32],
    decisions: &mut [i32],
    actions: &mut [i32],
    scratch: &mut [i32],
) -> Decoded
    ensures { Decodes (tables states.old edges.old ranges.old sets.old rules.old modes.old decisions.old actions.old scratch.old)
        words.now at result
        (tables states.new edges.new ranges.new sets.new rules.new modes.new decisions.new actions.new scratch.new) }
{
    let mut lent = Lent {
        states,
        edges,
        ranges,
        sets,
        rules,
        modes,
        decisions,
        actions,
        scratch,
    };
    let rooms = lent.rooms();
    lent.clear();
    let filled = filling::fill(words, at, rooms, &mut lent);
    settling::settle(filled, at, &mut lent)
}
