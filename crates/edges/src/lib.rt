// Document 01, fields 23 to 29: the edges are read, tested, laid into their table and chained.
// From the Rust's atn/serialized.rs: the first half of `deserialize_edges`.

#![tactic(auto)]

ghost use Rattle.std.specs.Prelude.{◌≡◌, ℕ, ◌*◌, ◌≤◌, length};
ghost use Rattle.format.specs.Reading.{Table, Edges};
ghost use Rattle.inplace.specs.Held.{held, onward};
ghost use Rattle.inplace.specs.Links.{net, edging};
ghost use Rattle.edges.specs.Lent.{StatesIn};

use format::Decoded;

mod arguments;
mod edge;
mod filling;
mod reading;
mod tests;
mod transition;

// The section of the edges.
pub fn deserialize_edges(
    sofar: Decoded,
    words: &[i32],
    states: &mut [i32],
    edges: &mut [i32],
    room: usize,
) -> Decoded
    requires { (StatesIn (length states.old) sofar) × (8 * room ≤ length edges.old) × (room ≤ 65536) }
    ensures { (rooms : Table → ℕ) → rooms Edges ≡ room → held result (net states.new edges.new) ≡ onward edging words.now rooms (held sofar (net states.old edges.old)) }
{
    filling::count_edges(sofar?, words, states, edges, room)
}
