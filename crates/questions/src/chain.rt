// Document 01, "the number of a state's n-th edge": the walk along its chain.

ghost use Rattle.std.specs.Prelude.{◌≡◌, true};
ghost use Rattle.format.specs.Reading.{Edges};
ghost use Rattle.format.specs.Questions.{fits};
ghost use Rattle.format.specs.Questions as spec;

use crate::{denials, records};
use format::{NthEdge, edge};

// So many steps on from the edge `first`. Every edge on the way is tested before it is followed, and so is the answer.
pub fn walk(edges: &[i32], edge_count: usize, steps: usize, first: i32) -> NthEdge
    requires { fits Edges edge_count edges.now ≡ true }
    ensures { result ≡ spec.walk edges.now edge_count steps first }
{
    let mut edge = first;
    for _ in 0..steps {
        if !records::listed(edge_count, edge) {
            return Err(denials::contradiction());
        }
        edge = records::word(edges, edge::WIDTH, edge, edge::NEXT);
    }
    if !records::listed(edge_count, edge) {
        return Err(denials::contradiction());
    }
    Ok(edge)
}
