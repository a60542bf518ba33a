// The sets, each with its ranges (document 01, "Reading order and fields"; document 02, R-1: "EOF flag always 0 with −1 kept as a range").

ghost use Rattle.std.specs.Prelude.{map, ◌≤◌, ◌<◌, ◌^◌};
ghost use Rattle.format.specs.Writing.{counted, set_form, range_back, rows_of};
ghost use Rattle.writing.specs.Laid.{Lays};
ghost use Rattle.writing.specs.Parts.{in_sets, sets_back};

use crate::{putting, records};
use format::{range, set};
use tables::rows::Rows;

// A set: its count, 0, and its ranges.
fn write_set(ranges: &Rows<2>, out: &mut [i32], at: usize) -> usize
    requires { at < 2 ^ 45 }
    ensures { Lays (2 ^ 18) at (set_form (map range_back (rows_of 2 ranges.now.count ranges.now.words.now))) out.old out.new result }
{
    let flag = putting::put_number(out, at, ranges.count);
    let mut next = putting::put_number(out, flag, 0);
    for range in ranges.counted() {
        next = records::write_range(range, out, next);
    }
    next
}

// The sets, whose ranges lie in a row.
pub fn write_sets(sets: &Rows<2>, ranges: &Rows<2>, out: &mut [i32], at: usize) -> usize
    requires { (in_sets (rows_of 2 sets.now.count sets.now.words.now) ≤ ranges.now.count) × (at < 2 ^ 40) }
    ensures { Lays (2 ^ 36) at (counted set_form (sets_back ranges.now.count ranges.now.words.now (rows_of 2 sets.now.count sets.now.words.now))) out.old out.new result }
{
    let mut next = putting::put_number(out, at, sets.count);
    let mut first = 0;
    for set in sets.counted() {
        let count = tables::size_at(set, set::COUNT);
        let own = Rows {
            words: &ranges.words[range::WIDTH * first..],
            count,
        };
        next = write_set(&own, out, next);
        first += count;
    }
    next
}
