// What a word of a record is: not negative, "None", a certain number, or the number of a record.

ghost use Rattle.std.specs.Prelude.{◌≡◌, pos};
ghost use Rattle.format.specs.Sections.{same};
ghost use Rattle.format.specs.Links.{names};
ghost use Rattle.rewriting.specs.Formed as spec;

// Whether the word is not negative.
pub fn natural(word: i32) -> bool
    ensures { result ≡ spec.natural word }
{
    0 <= word
}

// Whether the word is the number of one of n records.
pub fn named(word: i32, n: usize) -> bool
    ensures { result ≡ names n word }
{
    usize::try_from(word).is_ok_and(|number| number < n)
}

// Whether the word is the number n.
pub fn is_number(word: i32, n: usize) -> bool
    ensures { result ≡ same word (pos n) }
{
    usize::try_from(word) == Ok(n)
}

// ""None" is -1."
pub fn absent(word: i32) -> bool
    ensures { result ≡ spec.absent word }
{
    word == -1
}

pub fn or_absent(word: i32) -> bool
    ensures { result ≡ spec.or_absent word }
{
    natural(word) | absent(word)
}

pub fn nought(word: i32) -> bool
    ensures { result ≡ spec.nought word }
{
    word == 0
}

// 0 or 1.
pub fn truth(word: i32) -> bool
    ensures { result ≡ spec.truth word }
{
    matches!(word, 0 | 1)
}
