// Document 01, "Each set merges inside the part of the range table that begins at its first range": `part` is that part. A set's
// intervals are gathered there as they are read, and merged once.
// From the Rust's atn/serialized.rs: the intervals of `deserialize_sets`.

ghost use Rattle.std.specs.Prelude.{◌≡◌, ℕ, ◌+◌, ◌*◌, ◌≤◌, ◌<◌, length};
ghost use Rattle.format.specs.Reading.{Table, run};
ghost use Rattle.format.specs.Sections.{bit};
ghost use Rattle.laws.specs.Running.{turns};
ghost use Rattle.words.specs.Answers.{told, Below};
ghost use Rattle.sets.specs.Answers.{told_ix};
ghost use Rattle.sets.specs.Merging as spec;

use format::Spot;
use words::{Read, Step};

// Fields 21 and 22: one interval, into the k-th range of the part. Its words belong to the set with the number `record`.
fn deserialize_interval(part: &mut [i32], record: usize, k: usize, words: &[i32], at: usize) -> Step
    requires { 2 * k + 2 ≤ length part.old }
    ensures { (rooms : Table → ℕ) → told result part.new ≡ run (spec.gather_one «record» k part.old) words.now rooms at }
{
    let (start, second) = words::read(words, at, Spot { field: 21, record })?;
    let (stop, next) = words::read(words, second, Spot { field: 22, record })?;
    ordering::put(part, k, start, stop);
    Ok(next)
}

// n intervals, one after another, into the records from `first` on.
fn gather(
    part: &mut [i32],
    record: usize,
    first: usize,
    n: usize,
    words: &[i32],
    start: usize,
) -> Step
    requires { 2 * (n + first) ≤ length part.old }
    ensures { (rooms : Table → ℕ) → told result part.new ≡ run (turns n first (spec.gather_one «record») part.old) words.now rooms start }
{
    let mut at = start;
    for i in first..n + first {
        at = deserialize_interval(part, record, i, words, at)?;
    }
    Ok(at)
}

// "The EOF flag, if not 0, adds -1": the records of a set before its intervals. Answers how many they are.
fn begin_set(part: &mut [i32], flagged: bool) -> usize
    requires { 2 * bit flagged ≤ length part.old }
    ensures value { result ≡ bit flagged }
    ensures part_after { part.new ≡ spec.begun flagged part.old }
{
    if flagged {
        ordering::put(part, 0, -1, -1);
    }
    usize::from(flagged)
}

// The set with that number, of n intervals. Its records are all written before any is read.
pub fn merge_set(
    part: &mut [i32],
    record: usize,
    flagged: bool,
    n: usize,
    words: &[i32],
    at: usize,
) -> Read<usize>
    requires { (n ≤ 65536) × (2 * (n + bit flagged) ≤ length part.old) }
    ensures says { (rooms : Table → ℕ) → told_ix result (spec.part part.new) ≡ run (spec.merging «record» flagged n part.old) words.now rooms at }
    ensures bounded { Below (n + bit flagged + 1) result }
{
    let first = begin_set(part, flagged);
    let next = gather(part, record, first, n, words, at)?;
    Ok((ranges::normalize(part, n + first), next))
}
