// Words of the lent tables (document 01, "Lent tables"): clearing a table, a record of it, and one word of it read or written as a record's number.
// Everything that is signed about them stays in here.

#![tactic(auto)]

pub mod net;
pub mod records;
pub mod rows;

ghost use Rattle.std.specs.Prelude.{◌≡◌, ◌+◌, ◌*◌, ◌<◌, ◌≤◌, ◌^◌, pos, length, get_or, set};
ghost use Rattle.format.specs.Sections.{size};
ghost use Rattle.format.specs.Tables.{row_at, zeros};
ghost use Rattle.tables.specs.Words.{number_of, number_at};

// "Room is the number of whole records, counted as 65,536 at most."
pub const MOST: usize = 65_536;

// Words of scratch for each state.
pub const SCRATCH: usize = 4;

// Every word becomes 0.
pub fn clear(t: &mut [i32])
    ensures { t.new ≡ zeros (length t.old) }
{
    t.fill(0);
}

// A word as a record's number. "None" is -1: a number that no table has a record for.
pub fn number_of(z: i32) -> usize
    ensures { result ≡ number_of z }
{
    usize::try_from(z).unwrap_or(u32::MAX as usize)
}

// Word i, as a record's number.
pub fn number_at(t: &[i32], i: usize) -> usize
    requires { i < length t.now }
    ensures { result ≡ number_at t.now i }
{
    number_of(t[i])
}

// Word i's size: 0 for a negative word.
pub fn size_at(t: &[i32], i: usize) -> usize
    requires { i < length t.now }
    ensures { (result ≡ size (get_or t.now i (pos 0))) × (result < 2 ^ 31) }
{
    usize::try_from(t[i]).unwrap_or(0)
}

// Record i, of so many words.
pub fn row<'a>(t: &'a [i32], width: usize, i: usize) -> &'a [i32]
    requires { width * i + width ≤ length t.now }
    ensures { result.now ≡ row_at width t.now i }
{
    &t[width * i..width * i + width]
}

// A number becomes word i. (By `as`, which is proved to lose nothing.)
pub fn store(t: &mut [i32], i: usize, v: usize)
    requires { (i < length t.old) × (v < 2 ^ 31) }
    ensures { t.new ≡ set t.old i (pos v) }
{
    t[i] = v as i32;
}

// Word j of another table becomes word i.
pub fn copy_word(to: &mut [i32], i: usize, from: &[i32], j: usize)
    requires { (i < length to.old) × (j < length from.now) }
    ensures { to.new ≡ set to.old i (get_or from.now j (pos 0)) }
{
    to[i] = from[j];
}
