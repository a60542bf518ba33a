// Document 01, fields 18 to 22 and "Sets": the sets are read, and each merges its intervals inside the part of the range table that
// begins at its first range.
// From the Rust's atn/serialized.rs: `deserialize_sets`.

#![tactic(auto)]

mod eof;
mod keeping;
mod merging;

ghost use Rattle.std.specs.Prelude.{◌≡◌, ℕ, ◌+◌, ◌*◌, ◌≤◌, length};
ghost use Rattle.format.specs.Reading.{Table, Ranges, Sets, run};
ghost use Rattle.laws.specs.Running.{turns};
ghost use Rattle.inplace.specs.Held.{held, onward, with};
ghost use Rattle.inplace.specs.Sets.{sets2, set_one, setting};
ghost use Rattle.words.specs.Answers.{Below};
ghost use Rattle.sets.specs.Answers.{told_ix, keeping_of};

use format::{Counts, Decoded, Spot};
use words::Read;

// The i-th set, behind `kept` ranges: answers how many ranges are kept then. (Both tables are written, so they are no `Rows`; a struct of
// two `&mut` would say in each method that both references stay, and saves one parameter.)
fn deserialize_set(
    ranges: &mut [i32],
    sets: &mut [i32],
    i: usize,
    kept: usize,
    room: usize,
    words: &[i32],
    at: usize,
) -> Read<usize>
    requires { (kept ≤ room) × (room ≤ 65536) × (2 * room ≤ length ranges.old) × (2 * i + 2 ≤ length sets.old) }
    ensures says { (rooms : Table → ℕ) → rooms Ranges ≡ room → told_ix result (keeping_of ranges.new sets.new) ≡ run (set_one i (keeping_of ranges.old sets.old kept)) words.now rooms at }
    ensures bounded { Below (room + 1) result }
{
    let spot = Spot {
        field: 19,
        record: i,
    };
    let (n, next) = words::read_usize(words, at, spot)?;
    let (flagged, first) = eof::read_flag(i, words, next, kept, n, room)?;
    keeping::keep_set(ranges, sets, i, kept, n, flagged, words, first)
}

// n sets, one after another: answers how many ranges are kept.
fn fill(
    ranges: &mut [i32],
    sets: &mut [i32],
    n: usize,
    room: usize,
    words: &[i32],
    first: usize,
) -> Read<usize>
    requires { (room ≤ 65536) × (2 * room ≤ length ranges.old) × (2 * n ≤ length sets.old) }
    ensures { (rooms : Table → ℕ) → rooms Ranges ≡ room → told_ix result (keeping_of ranges.new sets.new) ≡ run (turns n 0 set_one (keeping_of ranges.old sets.old 0)) words.now rooms first }
{
    let mut kept = 0;
    let mut at = first;
    for i in 0..n {
        (kept, at) = deserialize_set(ranges, sets, i, kept, room, words, at)?;
    }
    Ok((kept, at))
}

// The section behind what was accepted.
fn fill_counted(
    counts: Counts,
    words: &[i32],
    ranges: &mut [i32],
    sets: &mut [i32],
    room_ranges: usize,
    room_sets: usize,
) -> Decoded
    requires { (room_ranges ≤ 65536) × (room_sets ≤ 65536) × (2 * room_ranges ≤ length ranges.old) × (2 * room_sets ≤ length sets.old) }
    ensures { (rooms : Table → ℕ) → rooms Ranges ≡ room_ranges → rooms Sets ≡ room_sets → held result (sets2 ranges.new sets.new) ≡ run (setting (with counts (sets2 ranges.old sets.old))) words.now rooms counts.words }
{
    let (n, first) = words::read_count(words, counts.words, 18, room_sets)?;
    let (kept, end) = fill(ranges, sets, n, room_ranges, words, first)?;
    Ok(Counts {
        words: end,
        ranges: kept,
        sets: n,
        ..counts
    })
}

// The sections so far, and then the sets.
pub fn deserialize_sets(
    sofar: Decoded,
    words: &[i32],
    ranges: &mut [i32],
    sets: &mut [i32],
    room_ranges: usize,
    room_sets: usize,
) -> Decoded
    requires { (room_ranges ≤ 65536) × (room_sets ≤ 65536) × (2 * room_ranges ≤ length ranges.old) × (2 * room_sets ≤ length sets.old) }
    ensures { (rooms : Table → ℕ) → rooms Ranges ≡ room_ranges → rooms Sets ≡ room_sets → held result (sets2 ranges.new sets.new) ≡ onward setting words.now rooms (held sofar (sets2 ranges.old sets.old)) }
{
    fill_counted(sofar?, words, ranges, sets, room_ranges, room_sets)
}
