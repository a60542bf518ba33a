// Document 01, "Reading order and fields" and "Refusal numbers": one word is read, and one word is tested. A word and a place are passed by
// value (document 01, "What must change shape").
// From the Rust's atn/serialized.rs: `read`, `read_usize`, `read_index`.

#![tactic(auto)]

ghost use Rattle.std.specs.Prelude.{◌≡◌, List, ℕ, ◌+◌, ◌<◌, ◌^◌, ℤ, pos};
ghost use Rattle.format.specs.Reading.{Table, run, get, index, count, natural, known as isKnown, listed as isListed, refusal, bare as is_bare};
ghost use Rattle.format.specs.Sections.{raised as isRaised, or_none};
ghost use Rattle.words.specs.Signs.{index_of};
ghost use Rattle.words.specs.Answers.{outcome, Below};

use format::reason::Reason;
use format::{Refusal, Spot};

// What was read, and the place of the next word; or why not.
pub type Read<T> = Result<(T, usize), Refusal>;

// The place of the next word, or why not: what a part of a section answers that leaves its words in a table.
pub type Step = Result<usize, Refusal>;

// A word as an index; none if it is negative.
pub fn index_of(x: i32) -> Option<usize>
    ensures { result ≡ index_of x }
{
    usize::try_from(x).ok()
}

// An index as a word. (By `as`, which is proved to lose nothing: `try_from` would answer an error that can't be.)
pub fn word_of(n: usize) -> i32
    requires { n < 2 ^ 31 }
    ensures { result ≡ pos n }
{
    n as i32
}

// Whether a word is not 0.
pub fn raised(c: i32) -> bool
    ensures { result ≡ isRaised c }
{
    c != 0
}

// A word, or none if it is negative.
pub fn or_none(b: i32) -> i32
    ensures { result ≡ or_none b }
{
    if b < 0 { -1 } else { b }
}

// The refusal of the word `value`.
pub fn refused(number: u32, spot: Spot, place: usize, value: i32) -> Refusal
    ensures { result ≡ refusal number spot place value }
{
    Refusal {
        number,
        field: spot.field,
        record: spot.record,
        place,
        value: i64::from(value),
    }
}

// "Refusals from here on hold 0 in what isn't named" (document 02): this one names its number alone.
pub fn bare(number: u32) -> Refusal
    ensures { result ≡ is_bare number }
{
    let nowhere = Spot {
        field: 0,
        record: 0,
    };
    refused(number, nowhere, 0, 0)
}

// The next word.
pub fn read(words: &[i32], at: usize, spot: Spot) -> Read<i32>
    ensures { (rooms : Table → ℕ) → outcome result ≡ run (get spot) words.now rooms at }
{
    match words.get(at) {
        Some(&word) => Ok((word, at + 1)),
        None => Err(refused(Reason::Ended as u32, spot, words.len(), 0)),
    }
}

// A word that was read, as an index: refusal 2 if it is negative.
pub fn read_index(value: i32, spot: Spot, place: usize, next: usize) -> Read<usize>
    ensures says { (ws : List ℤ) (rooms : Table → ℕ) → outcome result ≡ run (natural spot place value) ws rooms next }
    ensures bounded { Below (2 ^ 31) result }
{
    match index_of(value) {
        Some(n) => Ok((n, next)),
        None => Err(refused(Reason::Negative as u32, spot, place, value)),
    }
}

// A word that was read, if it is one of from to to; else the refusal with that number. (Its spot, its place and the next one are passed by
// value, as everywhere in the decoder: document 01, "What must change shape".)
pub fn known(
    value: i32,
    number: u32,
    from: usize,
    to: usize,
    spot: Spot,
    place: usize,
    next: usize,
) -> Read<usize>
    requires { to < 2 ^ 31 }
    ensures says { (ws : List ℤ) (rooms : Table → ℕ) → outcome result ≡ run (isKnown number from to spot place value) ws rooms next }
    ensures bounded { Below (to + 1) result }
{
    match index_of(value) {
        Some(n) if from <= n && n <= to => Ok((n, next)),
        _ => Err(refused(number, spot, place, value)),
    }
}

// An index that was read, if it is below `end`; else the refusal with that number.
pub fn listed(
    n: usize,
    number: u32,
    end: usize,
    spot: Spot,
    place: usize,
    next: usize,
) -> Read<usize>
    requires { n < 2 ^ 31 }
    ensures says { (ws : List ℤ) (rooms : Table → ℕ) → outcome result ≡ run (isListed number end spot place n) ws rooms next }
    ensures bounded { Below end result }
{
    if n < end {
        Ok((n, next))
    } else {
        Err(refused(number, spot, place, word_of(n)))
    }
}

// The next word as an index.
pub fn read_usize(words: &[i32], at: usize, spot: Spot) -> Read<usize>
    ensures says { (rooms : Table → ℕ) → outcome result ≡ run (index spot) words.now rooms at }
    ensures bounded { Below (2 ^ 31) result }
{
    let (value, next) = read(words, at, spot)?;
    read_index(value, spot, at, next)
}

// A count of records, for which there must be room: refusal 12 if there is not.
pub fn read_count(words: &[i32], at: usize, field: u32, room: usize) -> Read<usize>
    ensures says { (rooms : Table → ℕ) (t : Table) → rooms t ≡ room → outcome result ≡ run (count t field) words.now rooms at }
    ensures bounded { Below (room + 1) result }
{
    let spot = Spot { field, record: 0 };
    let (n, next) = read_usize(words, at, spot)?;
    if n <= room {
        Ok((n, next))
    } else {
        Err(refused(Reason::NoRoom as u32, spot, at, word_of(n)))
    }
}
