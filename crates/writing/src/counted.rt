// The sections: a count, and so many records (document 01, "Reading order and fields"; document 02, R-1, "One fixed form").

ghost use Rattle.std.specs.Prelude.{◌≡◌, List, ◌≤◌, ◌<◌, ◌^◌, ℤ};
ghost use Rattle.format.specs.Links.{numbers};
ghost use Rattle.format.specs.Tables.{state_word};
ghost use Rattle.format.specs.Writing.{counted, rows_of};
ghost use Rattle.writing.specs.Laid.{Lays};
ghost use Rattle.writing.specs.Parts.{has_flag};

use crate::{flagged, putting};
use tables::rows::Rows;

// What is written record by record, of W words each.
pub trait Record<const W: usize> {
    // The words of one in the one fixed form.
    ghost form: { List ℤ → List ℤ };

    // They are put.
    fn write(row: &[i32; W], out: &mut [i32], at: usize) -> usize
        requires { at < 2 ^ 50 }
        ensures { Lays 6 at (form row.now) out.old out.new result };
}

// A section's count, and the words of its records. The widest have 8 words.
pub fn write_records<R: Record<W>, const W: usize>(
    rows: &Rows<W>,
    out: &mut [i32],
    at: usize,
) -> usize
    requires wide { (0 < W) × (W ≤ 8) }
    requires near { at < 2 ^ 40 }
    ensures { Lays (2 ^ 36) at (counted R.form (rows_of W rows.now.count rows.now.words.now)) out.old out.new result }
{
    let mut next = putting::put_number(out, at, rows.count);
    for row in rows.counted() {
        next = R::write(row, out, next);
    }
    next
}

// "flagged states ascending": the states with the flag. They are counted as they are put, and their count goes before them.
pub fn write_flagged(states: &Rows<8>, flag: usize, out: &mut [i32], at: usize) -> usize
    requires { (0 < flag) × (at < 2 ^ 40) }
    ensures { Lays (2 ^ 36) at (counted state_word (numbers (has_flag flag) (rows_of 8 states.now.count states.now.words.now))) out.old out.new result }
{
    let first = at + 1;
    let mut next = first;
    for (i, state) in states.counted().iter().enumerate() {
        next = flagged::write_if_flagged(state, flag, i, out, next);
    }
    putting::put_number(out, at, next - first);
    next
}
