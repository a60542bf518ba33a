// An answer's values, handed over (include/gatehazel.h, "Answers").

ghost use Rattle.std.specs.Prelude.{◌≡◌, [], ◌∷◌, ◌≤◌, ◌<◌, ◌^◌, pos, length, set};
ghost use Rattle.format.specs.Answers.{said, of_refusal, of_decoded, of_written, of_nth_edge, of_matching, of_set_part};
ghost use Rattle.capi.specs.Handed.{handed, Hands, Small, SmallWritten, SmallRefusal, SmallCounts, SmallPart};

use format::{Counts, Decoded, Denial, Matching, NthEdge, Refusal, SetPart, Written};

// Answers have room for so many values.
const MOST: usize = 16;

// A size, signed.
fn signed(n: usize) -> i64
    requires { n < 2 ^ 63 }
    ensures { result ≡ pos n }
{
    n as i64
}

// One element, if there is one.
fn put(answer: &mut [i64], at: usize, value: i64)
    ensures { answer.new ≡ set answer.old at value }
{
    if at < answer.len() {
        answer[at] = value;
    }
}

// The values become the first elements, and zeros follow up to the 16th; of a shorter answer, as many as there are. (One by one, since
// `copy_from_slice` has the archive ask for a `memcpy`, which not every firmware has.)
fn hand(values: &[i64], answer: &mut [i64])
    requires { length values.now ≤ 16 }
    ensures { answer.new ≡ handed values.now answer.old }
{
    let room = answer.len();
    let cleared = room.min(MOST);
    answer[..cleared].fill(0);
    for (i, value) in values.iter().enumerate() {
        put(answer, i, *value);
    }
}

// What is no refusal has the number 0.
fn told(values: &[i64], answer: &mut [i64]) -> u32
    requires { length values.now ≤ 16 }
    ensures { Hands (said 0 values.now) result answer.old answer.new }
{
    hand(values, answer);
    0
}

// A question's refusal.
fn denied(d: Denial, answer: &mut [i64]) -> u32
    ensures { Hands (said d.number (pos d.number ∷ d.value ∷ [])) result answer.old answer.new }
{
    hand(&[i64::from(d.number), d.value], answer);
    d.number
}

// A decode's or a writing's refusal.
fn refused(r: Refusal, answer: &mut [i64]) -> u32
    requires { SmallRefusal r }
    ensures { Hands (of_refusal r) result answer.old answer.new }
{
    let number = i64::from(r.number);
    let field = i64::from(r.field);
    hand(
        &[number, field, signed(r.place), r.value, signed(r.record)],
        answer,
    );
    r.number
}

// The edge's number, or the refusal.
pub fn nth_edge(e: NthEdge, answer: &mut [i64]) -> u32
    ensures { Hands (of_nth_edge e) result answer.old answer.new }
{
    match e {
        Ok(n) => told(&[i64::from(n)], answer),
        Err(d) => denied(d, answer),
    }
}

// 1 or 0, or the refusal.
pub fn matching(m: Matching, answer: &mut [i64]) -> u32
    ensures { Hands (of_matching m) result answer.old answer.new }
{
    match m {
        Ok(b) => told(&[i64::from(b)], answer),
        Err(d) => denied(d, answer),
    }
}

// The part's first word and its length, or the refusal.
pub fn set_part(p: SetPart, answer: &mut [i64]) -> u32
    requires { SmallPart p }
    ensures { Hands (of_set_part p) result answer.old answer.new }
{
    match p {
        Ok((from, length)) => told(&[signed(from), signed(length)], answer),
        Err(d) => denied(d, answer),
    }
}

// An acceptance's counts.
fn accepted(c: Counts, answer: &mut [i64]) -> u32
    requires { SmallCounts c }
    ensures { Hands (of_decoded (Ok c)) result answer.old answer.new }
{
    let values = [
        signed(c.words),
        i64::from(c.token),
        signed(c.states),
        signed(c.edges),
        signed(c.derived),
        signed(c.ranges),
        signed(c.sets),
        signed(c.rules),
        signed(c.modes),
        signed(c.decisions),
        signed(c.actions),
    ];
    told(&values, answer)
}

// A decode's counts, or its refusal.
pub fn decoded(d: Decoded, answer: &mut [i64]) -> u32
    requires { Small d }
    ensures { Hands (of_decoded d) result answer.old answer.new }
{
    match d {
        Ok(c) => accepted(c, answer),
        Err(r) => refused(r, answer),
    }
}

// The number of words that were written, or the refusal.
pub fn written(w: Written, answer: &mut [i64]) -> u32
    requires { SmallWritten w }
    ensures { Hands (of_written w) result answer.old answer.new }
{
    match w {
        Ok(n) => told(&[signed(n)], answer),
        Err(r) => refused(r, answer),
    }
}
