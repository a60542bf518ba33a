// Document 01, "a set part outside: 14": where a listed set's ranges stand.

ghost use Rattle.std.specs.Prelude.{◌≡◌};
ghost use Rattle.questions.specs.Parts.{part_at};

use crate::denials;
use format::{SetPart, range};

// The part of the set that has its first range and its range count in those two words.
pub fn part(first: i32, count: i32, range_count: usize) -> SetPart
    ensures { result ≡ part_at first count range_count }
{
    match (words::index_of(first), words::index_of(count)) {
        (Some(first), Some(count)) if first + count <= range_count => {
            Ok((range::WIDTH * first, range::WIDTH * count))
        }
        _ => Err(denials::contradiction()),
    }
}
