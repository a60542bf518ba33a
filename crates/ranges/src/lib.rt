// Sets of 32-bit numbers as ranges in a lent table: document 01, "Sets". A range is two words, start and stop.
// From the Rust's atn/mod.rs: `IntervalSet`'s `normalize` and `contains`. The Rust normalizes a set after each interval; here that is
// done once, when all of them are there.

#![tactic(auto)]

mod joining;

ghost use Rattle.std.specs.Prelude.{◌≡◌, ◌*◌, ◌≤◌, length};
ghost use Rattle.format.specs.Questions.{lookup};
ghost use Rattle.inplace.specs.Sets.{kept_in};
ghost use Rattle.ranges.specs.Laid.{kept_of};
ghost use Rattle.ranges.specs.Joining.{Merges};

// The ranges that a set keeps of the n intervals at the front of `part`. Answers how many. Where no interval starts below the range
// before it, as ANTLR writes them, one pass is all; else what it leaves is put in order, and a second one does the rest.
fn merge(part: &mut [i32], n: usize) -> usize
    requires { 2 * n ≤ length part.old }
    ensures { Merges part.old part.new n result }
{
    let first = joining::join(part, n);
    if first.rising {
        return first.count;
    }
    ordering::sort(part, first.count);
    joining::join(part, first.count).count
}

// A set's n intervals stand at the front of `part`, which is the rest of the range table from the set's first range on: they become
// the ranges that the set keeps. Answers how many. Records that are no longer used are cleared, and all that stands behind them stays.
pub fn normalize(part: &mut [i32], n: usize) -> usize
    requires { 2 * n ≤ length part.old }
    ensures value { result ≡ length (kept_of part.old n) }
    ensures part_after { part.new ≡ kept_in n (kept_of part.old n) part.old }
{
    let count = merge(part, n);
    part[2 * count..2 * n].fill(0);
    count
}

// "Lookup of v": whether a range holds the value, by halving. An odd last word is not read. (Not by `partition_point`: it halves at other
// places and says nothing of ranges that are not in order, and document 01's lookup answers for any words.)
pub fn contains(ranges: &[i32], value: i32) -> bool
    ensures { result ≡ lookup ranges.now value }
{
    let mut low: usize = 0;
    let mut high: usize = ranges.len() / 2;
    while low < high {
        let middle = low + (high - low) / 2;
        if ranges[2 * middle] <= value {
            low = middle + 1;
        } else {
            high = middle;
        }
    }
    if low == 0 {
        return false;
    }
    value <= ranges[2 * (low - 1) + 1]
}
