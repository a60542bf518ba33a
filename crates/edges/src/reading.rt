// Document 01, fields 24 to 29: "six words are read (24 and 25 tested as read)".
// From the Rust's atn/serialized.rs: the six reads of `deserialize_edges`.

ghost use Rattle.std.specs.Prelude.{◌≡◌, ℕ, ◌+◌, ◌≤◌, ◌<◌, length};
ghost use Rattle.format.specs.Reading.{Table, run};
ghost use Rattle.words.specs.Answers.{outcome};
ghost use Rattle.edges.specs.Edge.{six_words, Sound};

use format::Spot;
use format::reason::Reason;
use words::Read;

// The six words of an edge as they were read: word 24, word 25, the type and the arguments. (No ghost field says that the first two are
// below 2^31: `raw` of specs/Edge.antt, of which the theorems speak, makes an edge of any numbers.)
#[derive(Clone, Copy)]
pub struct RawEdge {
    pub source: usize,
    pub target: usize,
    pub kind: i32,
    pub a: i32,
    pub b: i32,
    pub c: i32,
}

// The refusal of an edge of which fewer than six words are left: by its first two words, if they are there, or as ended at the first
// word that is not.
fn refuse_edge(record: usize, words: &[i32], at: usize) -> Read<RawEdge>
    requires { length words.now < at + 6 }
    ensures says { (rooms : Table → ℕ) → outcome result ≡ run (six_words «record») words.now rooms at }
    ensures sound { Sound (at + 6) result }
{
    let (_, second) = words::read_usize(words, at, Spot { field: 24, record })?;
    words::read_usize(words, second, Spot { field: 25, record })?;
    let missing = Spot {
        field: 24 + (words.len() - at) as u32,
        record,
    };
    Err(words::refused(Reason::Ended as u32, missing, words.len(), 0))
}

// Six words that are left, each by its own place: so the place of the next edge does not wait for what was read.
fn take_edge(record: usize, words: &[i32], at: usize) -> Read<RawEdge>
    requires { at + 6 ≤ length words.now }
    ensures says { (rooms : Table → ℕ) → outcome result ≡ run (six_words «record») words.now rooms at }
    ensures sound { Sound (at + 6) result }
{
    let (source, _) = words::read_index(words[at], Spot { field: 24, record }, at, at + 1)?;
    let (target, _) = words::read_index(words[at + 1], Spot { field: 25, record }, at + 1, at + 2)?;
    let edge = RawEdge {
        source,
        target,
        kind: words[at + 2],
        a: words[at + 3],
        b: words[at + 4],
        c: words[at + 5],
    };
    Ok((edge, at + 6))
}

// The six words of the edge with that number.
pub fn read_edge(record: usize, words: &[i32], at: usize) -> Read<RawEdge>
    ensures says { (rooms : Table → ℕ) → outcome result ≡ run (six_words «record») words.now rooms at }
    ensures sound { Sound (at + 6) result }
{
    if words.len().saturating_sub(at) >= 6 {
        take_edge(record, words, at)
    } else {
        refuse_edge(record, words, at)
    }
}
