// Gatehazel's public face: a serialized lexer network, decoded into lent tables (document 01, "Lent tables"), the questions
// about them, and the tables turned back into words (document 02, R-1).
// `decode` takes the words from the first on; `reader` begins at a place of the caller's choice.

#![tactic(auto)]

pub mod reader;

ghost use Rattle.inplace.specs.Whole.{tables};
ghost use Rattle.serialized.specs.Answered.{Decodes};

use format::Decoded;
// The four questions about decoded tables, and a set's bounds: proved where they stand.
pub use questions::{matches, nth_edge, set_part, set_ranges};
pub use ranges::contains;
// Tables turned back into words: proved where it stands.
pub use serializer::write;

pub fn decode(
    words: &[i32],
    states: &mut [i32],
    edges: &mut [i32],
    ranges: &mut [i32],
    sets: &mut [i32],
    rules: &mut [i32],
    modes: &mut [i32],
    decisions: &mut [i32],
    actions: &mut [i32],
    scratch: &mut [i32],
) -> Decoded
    ensures { Decodes (tables states.old edges.old ranges.old sets.old rules.old modes.old decisions.old actions.old scratch.old) words.now 0 result
        (tables states.new edges.new ranges.new sets.new rules.new modes.new decisions.new actions.new scratch.new) }
{
    serialized::deserialize(
        words, 0, states, edges, ranges, sets, rules, modes, decisions, actions, scratch,
    )
}
