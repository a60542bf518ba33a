// Document 02, R-1, refusal 15: "a count exceeds its table's whole records", or the most that any room holds.

ghost use Rattle.std.specs.Prelude.{◌≡◌, false, true, []};
ghost use Rattle.std.specs.Option.{MatchOption};
ghost use Rattle.format.specs.Tables.{nine};
ghost use Rattle.serializer.specs.Tests.{listed_in};
ghost use Rattle.tables.specs.Records.{words_in, counts_in};

use tables::net::Net;
use tables::records::Records;
use tables::rows::Rows;

// The records, where each table has so many. What `write` is given one by one, for C's sake, is one value from here on.
pub fn records<'a>(
    states: &'a [i32],
    states_count: usize,
    edges: &'a [i32],
    edges_count: usize,
    ranges: &'a [i32],
    ranges_count: usize,
    sets: &'a [i32],
    sets_count: usize,
    rules: &'a [i32],
    rules_count: usize,
    modes: &'a [i32],
    modes_count: usize,
    decisions: &'a [i32],
    decisions_count: usize,
    actions: &'a [i32],
    actions_count: usize,
) -> Option<Records<'a>>
    ensures { let tables = nine states.now edges.now ranges.now sets.now rules.now modes.now decisions.now actions.now [] in
        let counts = nine states_count edges_count ranges_count sets_count rules_count modes_count decisions_count actions_count 0 in
        MatchOption result (listed_in tables counts ≡ false)
        (λ records. (listed_in tables counts ≡ true) × (words_in records ≡ tables) × (counts_in records ≡ counts)) }
{
    let net = Net {
        states: Rows::lent(states, states_count)?,
        edges: Rows::lent(edges, edges_count)?,
        rules: Rows::lent(rules, rules_count)?,
    };
    Some(Records {
        net,
        ranges: Rows::lent(ranges, ranges_count)?,
        sets: Rows::lent(sets, sets_count)?,
        modes: Rows::lent(modes, modes_count)?,
        decisions: Rows::lent(decisions, decisions_count)?,
        actions: Rows::lent(actions, actions_count)?,
    })
}
