// Records of the lent tables: whether a table has so many, whether a number is one of them, and a record's word.

ghost use Rattle.std.specs.Prelude.{◌≡◌, ◌+◌, ◌*◌, ◌/◌, ◌<◌, leb, pos, length, get_or};
ghost use Rattle.format.specs.Sections.{size};
ghost use Rattle.format.specs.Links.{names};
ghost use Rattle.questions.specs.Parts.{checked};

use crate::denials;
use format::Denial;

// "Counts beyond whole records: 14".
pub fn check(table: &[i32], width: usize, count: usize) -> Result<(), Denial>
    requires { 0 < width }
    ensures { result ≡ checked (leb count (length table.now / width)) }
{
    if count <= table.len() / width {
        Ok(())
    } else {
        Err(denials::contradiction())
    }
}

// Whether the number is one of that many records'.
pub fn listed(count: usize, number: i32) -> bool
    ensures { result ≡ names count number }
{
    usize::try_from(number).is_ok_and(|n| n < count)
}

// Word k of the record with that number.
pub fn word(table: &[i32], width: usize, number: i32, k: usize) -> i32
    requires { width * size number + k < length table.now }
    ensures { result ≡ get_or table.now (width * size number + k) (pos 0) }
{
    let i = usize::try_from(number).unwrap_or(0);
    table[width * i + k]
}
