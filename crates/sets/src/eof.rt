// Document 01, field 20: the EOF flag, and the room that a set needs: "ranges after field 20, needing kept ranges + intervals + 1 if
// flagged (field 20)".
// From the Rust's atn/serialized.rs: the EOF flag of `deserialize_sets`.

ghost use Rattle.std.specs.Prelude.{◌≡◌, ℕ, ◌+◌, ◌<◌, ◌≤◌, ◌^◌};
ghost use Rattle.format.specs.Reading.{Table, Ranges, run, no_room};
ghost use Rattle.format.specs.Sections as spec;
ghost use Rattle.words.specs.Answers.{outcome};
ghost use Rattle.sets.specs.Answers.{Roomy};

use format::reason::Reason;
use format::{Refusal, Spot};
use words::Read;

// There is no room for so many records. (`words::refused` takes a word, and so many may be more than a word can say.)
fn no_room(spot: Spot, place: usize, needed: usize) -> Refusal
    requires { needed < 2 ^ 63 }
    ensures { result ≡ no_room spot place needed }
{
    Refusal {
        number: Reason::NoRoom as u32,
        field: spot.field,
        record: spot.record,
        place,
        value: needed as i64,
    }
}

// The flag of the set with that number, of n intervals, behind `kept` ranges.
pub fn read_flag(
    record: usize,
    words: &[i32],
    at: usize,
    kept: usize,
    n: usize,
    room: usize,
) -> Read<bool>
    requires { (kept ≤ 65536) × (n < 2 ^ 31) }
    ensures says { (rooms : Table → ℕ) → rooms Ranges ≡ room → outcome result ≡ run (spec.flagged «record» kept n) words.now rooms at }
    ensures roomy { Roomy (kept + n) room result }
{
    let spot = Spot { field: 20, record };
    let (word, next) = words::read(words, at, spot)?;
    let flagged = words::raised(word);
    let needed = kept + n + usize::from(flagged);
    if needed <= room {
        Ok((flagged, next))
    } else {
        Err(no_room(spot, at, needed))
    }
}
