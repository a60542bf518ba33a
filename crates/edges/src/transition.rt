// Document 01, "Edge types": what each of the ten types keeps, as an edge's eight words.
// From the Rust's atn/serialized.rs: `decode_transition`.

ghost use Rattle.std.specs.Prelude.{◌≡◌, ◌<◌, ◌^◌};
ghost use Rattle.format.specs.Kinds.{edge_number};
ghost use Rattle.format.specs.Sections.{edge_of, meaning};
ghost use Rattle.inplace.specs.Rows.{edge_row};

use crate::arguments::{label, truth};
use crate::reading::RawEdge;
use format::edge;
use format::kinds::EdgeKind;
use words::{index_of, or_none, word_of};

// One record, whole: plain, and not chained yet.
fn edge_row(
    kind: EdgeKind,
    source: usize,
    target: usize,
    p: i32,
    q: i32,
    r: i32,
) -> [i32; edge::WIDTH]
    requires { (source < 2 ^ 31) × (target < 2 ^ 31) }
    ensures { result ≡ edge_row 0 (edge_of (edge_number kind) source target p q r) }
{
    let kind = kind as i32;
    [kind, word_of(source), word_of(target), p, q, r, 0, -1]
}

// The edge that its type, word 25 and the arguments mean, as its eight words.
pub fn decode_transition(kind: EdgeKind, raw: RawEdge) -> [i32; edge::WIDTH]
    requires { (raw.source < 2 ^ 31) × (raw.target < 2 ^ 31) }
    ensures { result ≡ edge_row 0 (meaning (edge_number kind) raw.source raw.target raw.a raw.b raw.c) }
{
    let RawEdge {
        source: s,
        target: t,
        kind: _,
        a,
        b,
        c,
    } = raw;
    match kind {
        EdgeKind::Epsilon | EdgeKind::Wildcard => edge_row(kind, s, t, 0, 0, 0),
        EdgeKind::Range => edge_row(kind, s, t, label(a, c), b, 0),
        EdgeKind::Rule => edge_row(kind, s, index_of(a).unwrap_or(0), b, word_of(t), c),
        EdgeKind::Predicate => edge_row(kind, s, t, a, b, truth(c)),
        EdgeKind::Atom => edge_row(kind, s, t, label(a, c), 0, 0),
        EdgeKind::Action => edge_row(kind, s, t, a, or_none(b), truth(c)),
        EdgeKind::Set | EdgeKind::NotSet | EdgeKind::Precedence => edge_row(kind, s, t, a, 0, 0),
    }
}
