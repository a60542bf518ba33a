// Fields 9 to 12: the states with a flag.
// From the Rust's atn/serialized.rs: `deserialize_non_greedy_states`, `deserialize_precedence_states`.

ghost use Rattle.std.specs.Prelude.{◌≡◌, ℕ, ◌+◌, ◌*◌, ◌≤◌, ◌<◌, ◌^◌, length};
ghost use Rattle.format.specs.Reading.{Table, run};
ghost use Rattle.format.specs.Sections.{named};
ghost use Rattle.laws.specs.Running.{turns};
ghost use Rattle.words.specs.Answers.{outcome, told, Below};
ghost use Rattle.inplace.specs.Held.{held, onward, with};
ghost use Rattle.inplace.specs.Sections as spec;
ghost use Rattle.sections.specs.Tables.{StatesIn};

use format::reason::Reason;
use format::{Counts, Decoded, Spot};
use words::{Read, Step};

// Field 10 or 12: one of the n states, or why not.
fn read_named(words: &[i32], at: usize, n: usize, spot: Spot) -> Read<usize>
    ensures says { (rooms : Table → ℕ) → outcome result ≡ run (named n spot) words.now rooms at }
    ensures bounded { Below n result }
{
    let (s, next) = words::read_usize(words, at, spot)?;
    words::listed(s, Reason::UnlistedState as u32, n, spot, at, next)
}

// The state that the word of this spot names gets the flag. (The states are written, so they are no `Rows`; what is asked of them is what
// `bits::set_flag` asks.)
fn flag_one(states: &mut [i32], n: usize, bit: usize, words: &[i32], at: usize, spot: Spot) -> Step
    requires { (8 * n ≤ length states.old) × (bit < 2 ^ 31) }
    ensures { (rooms : Table → ℕ) → told result states.new ≡ run (spec.flag_one bit n spot.field spot.record states.old) words.now rooms at }
{
    let (s, next) = read_named(words, at, n, spot)?;
    bits::set_flag(states, s, bit);
    Ok(next)
}

// k states are flagged, one after another.
fn flag_all(
    states: &mut [i32],
    n: usize,
    bit: usize,
    k: usize,
    words: &[i32],
    first: usize,
    field: u32,
) -> Step
    requires { (8 * n ≤ length states.old) × (bit < 2 ^ 31) }
    ensures { (rooms : Table → ℕ) → told result states.new ≡ run (turns k 0 (spec.flag_one bit n field) states.old) words.now rooms first }
{
    let mut at = first;
    for i in 0..k {
        at = flag_one(states, n, bit, words, at, Spot { field, record: i })?;
    }
    Ok(at)
}

// The section behind what was accepted.
fn flag_counted(
    counts: Counts,
    words: &[i32],
    states: &mut [i32],
    bit: usize,
    field: u32,
) -> Decoded
    requires { (8 * counts.states ≤ length states.old) × (bit < 2 ^ 31) × (field < 100) }
    ensures { (rooms : Table → ℕ) → held result states.new ≡ run (spec.flagging bit field (with counts states.old)) words.now rooms counts.words }
{
    let n = counts.states;
    let (k, first) = words::read_usize(words, counts.words, Spot { field, record: 0 })?;
    let end = flag_all(states, n, bit, k, words, first, field + 1)?;
    Ok(Counts {
        words: end,
        ..counts
    })
}

// A count at the field, and so many states at the next, which get the flag.
pub fn deserialize_flags(
    sofar: Decoded,
    words: &[i32],
    states: &mut [i32],
    bit: usize,
    field: u32,
) -> Decoded
    requires { StatesIn (length states.old) sofar × (bit < 2 ^ 31) × (field < 100) }
    ensures { (rooms : Table → ℕ) → held result states.new ≡ onward (spec.flagging bit field) words.now rooms (held sofar states.old) }
{
    flag_counted(sofar?, words, states, bit, field)
}
