// "A rule's stop is its highest-numbered state of type 7 with that rule": found when the rules are read, in the order of the states.
// From the Rust's atn/serialized.rs: the stops of `deserialize_rules`.

ghost use Rattle.std.specs.Prelude.{◌≡◌, ◌+◌, ◌*◌, ◌≤◌, ◌<◌, length};
ghost use Rattle.inplace.specs.Sections.{stop_at, stops_in};

use format::kinds::StateKind;
use format::{rule, state};

// The state s becomes the stop of its rule, one of k, if it is a rule's stop.
fn stop_at(states: &[i32], rules: &mut [i32], k: usize, s: usize)
    requires { (8 * s + 8 ≤ length states.now) × (3 * k ≤ length rules.old) × (k ≤ 65536) × (s < 65536) }
    ensures { rules.new ≡ stop_at k states.now s rules.old }
{
    let from = state::WIDTH * s;
    if states[from + state::KIND] == StateKind::RuleStop as i32 {
        let of = tables::number_at(states, from + state::RULE);
        if of < k {
            tables::store(rules, rule::WIDTH * of + rule::STOP, s);
        }
    }
}

// The stops of k rules, by the first n states, in their order: a later one takes an earlier one's place. (Counts stand beside the tables,
// since the rules are written, and `tables::rows::Rows` are read alone.)
pub fn find_stops(states: &[i32], rules: &mut [i32], k: usize, n: usize)
    requires { (8 * n ≤ length states.now) × (3 * k ≤ length rules.old) × (k ≤ 65536) × (n ≤ 65536) }
    ensures { rules.new ≡ stops_in n k states.now rules.old }
{
    for s in 0..n {
        stop_at(states, rules, k, s);
    }
}
