// A state's flags, and its number where it has one of them (document 01: "Flags: 1 non-greedy, 2 left-recursive, 4 precedence decision").

ghost use Rattle.std.specs.Prelude.{◌≡◌, [], ◌∷◌, ◌<◌, ◌^◌};
ghost use Rattle.format.specs.Links.{numbers_from, each};
ghost use Rattle.format.specs.Tables.{state_word};
ghost use Rattle.writing.specs.Laid.{Lays};
ghost use Rattle.writing.specs.Parts.{has_flag};

use crate::putting;
use format::state;

// Whether a state has the flag.
fn flagged(row: &[i32; state::WIDTH], flag: usize) -> bool
    requires { 0 < flag }
    ensures { result ≡ has_flag flag row.now }
{
    let flags = tables::size_at(row, state::FLAGS);
    flags < 8 && flags / flag % 2 == 1
}

// A state's number s if it has the flag, else nothing.
pub fn write_if_flagged(
    row: &[i32; state::WIDTH],
    flag: usize,
    s: usize,
    out: &mut [i32],
    at: usize,
) -> usize
    requires { (0 < flag) × (s < 65536) × (at < 2 ^ 50) }
    ensures { Lays 1 at (each state_word (numbers_from s (has_flag flag) (row.now ∷ []))) out.old out.new result }
{
    if flagged(row, flag) {
        return putting::put_number(out, at, s);
    }
    at
}
