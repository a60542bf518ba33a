// Document 02, R-1, refusal 15: sets in a row, each of them kept as document 01, "Sets", says: "sorted and disjoint, and touching ones
// joined".

ghost use Rattle.std.specs.Prelude.{◌≡◌, ◌+◌, ◌*◌, ◌≤◌, length};
ghost use Rattle.format.specs.Sets.{ranges_of};
ghost use Rattle.rewriting.specs.Formed as spec;
ghost use Rattle.rewriting.specs.Passes.{sets_fine};
ghost use Rattle.checking.specs.Kept.{in_row, set_fine};

use crate::signs;
use format::{range, set};
use ordering::order;
use tables::rows::Rows;

// Whether range i lies behind the one before it, without touching it, and does not start above its stop.
fn in_row(part: &[i32], i: usize) -> bool
    requires { 2 * i + 2 ≤ length part.now }
    ensures { result ≡ in_row part.now i }
{
    let start = range::WIDTH * i + range::START;
    let stop = range::WIDTH * i + range::STOP;
    let rising = part[start] <= part[stop];
    if i == 0 {
        return rising;
    }
    order::apart(part[stop - range::WIDTH], part[start]) & rising
}

// Whether the ranges are such as a set keeps.
pub fn kept(part: &[i32]) -> bool
    ensures { result ≡ spec.kept 0 (ranges_of part.now) }
{
    (0..part.len() / range::WIDTH).all(|i| in_row(part, i))
}

// One set, with so many of the ranges before it.
fn set_fine(row: &[i32; set::WIDTH], before: usize, ranges: &Rows<2>) -> bool
    requires { before ≤ ranges.now.count }
    ensures { result ≡ set_fine ranges.now.count ranges.now.words.now before row.now }
{
    let count = tables::size_at(row, set::COUNT);
    if ranges.count - before < count {
        return false;
    }
    let from = range::WIDTH * before;
    let to = from + range::WIDTH * count;
    signs::is_number(row[set::FIRST], before)
        & signs::natural(row[set::COUNT])
        & kept(&ranges.words[from..to])
}

// The sets, of these ranges.
pub fn sets_fine(sets: &Rows<2>, ranges: &Rows<2>) -> bool
    ensures { result ≡ sets_fine sets.now.count sets.now.words.now ranges.now.count ranges.now.words.now }
{
    let mut before = 0;
    for row in sets.counted() {
        if !set_fine(row, before, ranges) {
            return false;
        }
        before += tables::size_at(row, set::COUNT);
    }
    before == ranges.count
}
