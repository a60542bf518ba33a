// One edge more in a chain: its two halves.
// From the Rust's atn/mod.rs: `add_transition`, over chained records.

ghost use Rattle.std.specs.Prelude.{◌≡◌, List, ◌+◌, ◌*◌, ◌<◌, ◌≤◌, ◌^◌, ℤ, length};
ghost use Rattle.inplace.specs.Rows.{one_more};
ghost use Rattle.inplace.specs.Links.{net, first_or, last_of};

use format::{edge, state};

// The edge i becomes the next of the state's last edge, or its first where it has none.
pub fn first_or(states: &mut [i32], edges: &mut [i32], i: usize, s: usize)
    requires { (8 * s + 8 ≤ length states.old) × (8 * i + 8 ≤ length edges.old) × (i < 2 ^ 31) }
    ensures { net states.new edges.new ≡ first_or i s (net states.old edges.old) }
{
    let last = tables::number_at(states, state::WIDTH * s + state::LAST);
    if last < i {
        tables::store(edges, edge::WIDTH * last + edge::NEXT, i);
    } else {
        tables::store(states, state::WIDTH * s + state::FIRST, i);
    }
}

// One more, up to the largest word; nonsense stays.
fn one_more(x: i32) -> i32
    ensures { result ≡ one_more x }
{
    if x < 0 { x } else { x.saturating_add(1) }
}

// The edge i becomes the state's last, which has one edge more.
pub fn last_of(states: &mut [i32], i: usize, s: usize)
    requires { (8 * s + 8 ≤ length states.old) × (i < 2 ^ 31) }
    ensures { (edges : List ℤ) → net states.new edges ≡ last_of i s (net states.old edges) }
{
    tables::store(states, state::WIDTH * s + state::LAST, i);
    let k = state::WIDTH * s + state::COUNT;
    states[k] = one_more(states[k]);
}
