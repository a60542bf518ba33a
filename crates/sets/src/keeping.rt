// Document 01, "Lent tables" and "Sets": a set's record is its first range and its range count, and later sets start behind what it
// kept.

ghost use Rattle.std.specs.Prelude.{◌≡◌, [], ◌∷◌, ℕ, ◌+◌, ◌*◌, ◌≤◌, ◌<◌, ◌^◌, pos, length};
ghost use Rattle.format.specs.Reading.{Table, run};
ghost use Rattle.format.specs.Sections.{bit};
ghost use Rattle.laws.specs.Collect.{put};
ghost use Rattle.words.specs.Answers.{Below};
ghost use Rattle.sets.specs.Answers.{told_ix, keeping_of};
ghost use Rattle.sets.specs.Sets.{set_rest};

use crate::merging;
use format::range;
use format::set::WIDTH;
use words::{Read, word_of};

// The i-th record.
fn put_set(sets: &mut [i32], i: usize, first: usize, count: usize)
    requires { (2 * i + 2 ≤ length sets.old) × (first < 2 ^ 31) × (count < 2 ^ 31) }
    ensures { sets.new ≡ put 2 i (pos first ∷ pos count ∷ []) sets.old }
{
    let from = WIDTH * i;
    sets[from..from + WIDTH].copy_from_slice(&[word_of(first), word_of(count)]);
}

// The i-th set, of n intervals, behind `kept` ranges: the rest of the range table, from the set's first range on, is lent onward to
// the merging. Answers how many ranges are kept then.
pub fn keep_set(
    ranges: &mut [i32],
    sets: &mut [i32],
    i: usize,
    kept: usize,
    n: usize,
    flagged: bool,
    words: &[i32],
    at: usize,
) -> Read<usize>
    requires { (kept + n + bit flagged ≤ 65536) × (2 * (kept + n + bit flagged) ≤ length ranges.old) × (2 * i + 2 ≤ length sets.old) }
    ensures says { (rooms : Table → ℕ) → told_ix result (keeping_of ranges.new sets.new) ≡ run (set_rest i (keeping_of ranges.old sets.old kept) n flagged) words.now rooms at }
    ensures bounded { Below (kept + n + bit flagged + 1) result }
{
    let from = range::WIDTH * kept;
    let (count, next) = merging::merge_set(&mut ranges[from..], i, flagged, n, words, at)?;
    put_set(sets, i, kept, count);
    Ok((kept + count, next))
}
