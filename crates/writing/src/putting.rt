// Single words, put into the output at a place. The next place is told also where the output does not go so far: so words are counted that do
// not fit, and no room is tested on the way (document 02, R-1: "16 exactly when the output is too short").
// A place is far from wrapping: each function asks for a bound on it that leaves room for those that call it.

ghost use Rattle.std.specs.Prelude.{[], ◌∷◌, ◌<◌, ◌^◌, pos};
ghost use Rattle.format.specs.Sections.{size};
ghost use Rattle.writing.specs.Laid.{Lays};

// A word.
pub fn put(out: &mut [i32], at: usize, v: i32) -> usize
    requires { at < 2 ^ 60 }
    ensures { Lays 1 at (v ∷ []) out.old out.new result }
{
    let next = at + 1;
    if at < out.len() {
        out[at] = v;
    }
    next
}

// A number, as a word.
pub fn put_number(out: &mut [i32], at: usize, n: usize) -> usize
    requires { (at < 2 ^ 60) × (n < 2 ^ 31) }
    ensures { Lays 1 at (pos n ∷ []) out.old out.new result }
{
    put(out, at, words::word_of(n))
}

// A word, as a number: 0 if it is negative.
pub fn put_size(out: &mut [i32], at: usize, v: i32) -> usize
    requires { at < 2 ^ 60 }
    ensures { Lays 1 at (pos (size v) ∷ []) out.old out.new result }
{
    put(out, at, v.max(0))
}
