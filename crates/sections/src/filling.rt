// A count, and so many records of one table.
// From the Rust's atn/serialized.rs: the loops of the `deserialize_..` sections.

ghost use Rattle.std.specs.Prelude.{◌≡◌, ℕ, ◌+◌, ◌*◌, ◌≤◌, length};
ghost use Rattle.format.specs.Reading.{Table, run};
ghost use Rattle.format.specs.Tables.{width};
ghost use Rattle.laws.specs.Running.{turns};
ghost use Rattle.laws.specs.Collect.{puts};
ghost use Rattle.words.specs.Answers.{told};
ghost use Rattle.inplace.specs.Held.{held, with};
ghost use Rattle.inplace.specs.Sections as spec;

use crate::records::Section;
use format::{Counts, Decoded};
use words::Step;

// The i-th record, into the table.
fn put_record<S: Section>(table: &mut [i32], i: usize, words: &[i32], at: usize) -> Step
    requires { width S.fills * i + width S.fills ≤ length table.old }
    ensures { (rooms : Table → ℕ) → told result table.new ≡ run (puts (width S.fills) (spec.row_of S.fills) i table.old) words.now rooms at }
{
    let width = S::width();
    let from = width * i;
    let to = from + width;
    S::deserialize_record(&mut table[from..to], i, words, at)
}

// n records, one after another.
fn fill<S: Section>(table: &mut [i32], n: usize, words: &[i32], first: usize) -> Step
    requires { width S.fills * n ≤ length table.old }
    ensures { (rooms : Table → ℕ) → told result table.new ≡ run (turns n 0 (puts (width S.fills) (spec.row_of S.fills)) table.old) words.now rooms first }
{
    let mut at = first;
    for i in 0..n {
        at = put_record::<S>(table, i, words, at)?;
    }
    Ok(at)
}

// The section behind what was accepted.
pub fn fill_counted<S: Section>(
    counts: Counts,
    words: &[i32],
    table: &mut [i32],
    room: usize,
) -> Decoded
    requires { width S.fills * room ≤ length table.old }
    ensures { (rooms : Table → ℕ) → rooms S.fills ≡ room → held result table.new ≡ run (spec.section S.fills (with counts table.old)) words.now rooms counts.words }
{
    let (n, first) = words::read_count(words, counts.words, S::field(), room)?;
    let end = fill::<S>(table, n, words, first)?;
    Ok(S::counted(counts, n, end))
}
