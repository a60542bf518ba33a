// A set's intervals, joined where they meet or touch: document 01, "A range with start above stop is swapped. Kept ranges are sorted and
// disjoint, and touching ones joined".
// From the Rust's atn/mod.rs: the swap of `IntervalSet`'s `add_range`, and the merging loop of its `normalize`.

ghost use Rattle.std.specs.Prelude.{◌≡◌, ◌+◌, ◌*◌, ◌≤◌, length};
ghost use Rattle.format.specs.Sets.{range, lower, upper};
ghost use Rattle.ordering.specs.Records.{put_at};
ghost use Rattle.ranges.specs.Joining.{meets, End, Joins};

use ordering::order;

// How many ranges are left, and whether no interval started below the range before it. Both are always told: where they did not rise,
// those that are left are counted as well, so that an Option or a Result would say less.
#[derive(Clone, Copy)]
pub struct Joined {
    pub count: usize,
    pub rising: bool,
}

// A range, its ends in order.
#[derive(Clone, Copy)]
struct Span {
    low: i32,
    high: i32,
}

impl Span {
    // The i-th record.
    fn read(part: &[i32], i: usize) -> Span
        requires { 2 * i + 2 ≤ length part.now }
        ensures low { End part.now i (λ q. q.start) result.low }
        ensures high { End part.now i (λ q. q.stop) result.high }
    {
        let start = part[2 * i];
        let stop = part[2 * i + 1];
        Span {
            low: start.min(stop),
            high: start.max(stop),
        }
    }

    // Whether the two meet or touch.
    fn meets(self, next: Span) -> bool
        ensures { result ≡ meets (range self.low self.high) (range next.low next.high) }
    {
        !order::apart(self.high, next.low) && !order::apart(next.high, self.low)
    }

    // Two that do, as one.
    fn joined(self, next: Span) -> Span
        ensures low { result.low ≡ lower self.low next.low }
        ensures high { result.high ≡ upper self.high next.high }
    {
        Span {
            low: self.low.min(next.low),
            high: self.high.max(next.high),
        }
    }

    // It becomes the k-th record.
    fn store(self, part: &mut [i32], k: usize)
        requires { 2 * k + 2 ≤ length part.old }
        ensures { part.new ≡ put_at part.old k (range self.low self.high) }
    {
        ordering::put(part, k, self.low, self.high);
    }
}

// The first n records: each is joined with the range before it where the two meet or touch. One forward pass, which carries that range,
// still to be stored, so that no store overtakes what is still to be read.
pub fn join(part: &mut [i32], n: usize) -> Joined
    requires { 2 * n ≤ length part.old }
    ensures { Joins part.old part.new n result }
{
    if n == 0 {
        return Joined {
            count: 0,
            rising: true,
        };
    }
    let mut last = Span::read(part, 0);
    let mut rising = true;
    let mut out: usize = 0;
    for i in 1..n {
        let next = Span::read(part, i);
        rising = rising && last.low <= next.low;
        if last.meets(next) {
            last = last.joined(next);
        } else {
            last.store(part, out);
            out += 1;
            last = next;
        }
    }
    last.store(part, out);
    Joined {
        count: out + 1,
        rising,
    }
}
