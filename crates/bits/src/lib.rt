// The flags of a state's record (document 01, "Flags: 1 non-greedy, 2 left-recursive, 4 precedence decision"): one more of them.

#![tactic(auto)]

ghost use Rattle.std.specs.Prelude.{◌≡◌, ◌+◌, ◌*◌, ◌<◌, ◌^◌, length};
ghost use Rattle.inplace.specs.Rows.{with_bit, flag_at};

use format::state;

// A flags word with one more flag.
fn with_bit(x: i32, bit: usize) -> i32
    requires { bit < 2 ^ 31 }
    ensures { result ≡ with_bit bit x }
{
    match words::index_of(x) {
        Some(flags) => words::word_of(flags | bit),
        None => x,
    }
}

// One more flag on the state s. (Any number below 2^31 may be asked for, as before: an enum of the three flags would ask more of callers.)
pub fn set_flag(states: &mut [i32], s: usize, bit: usize)
    requires { (8 * s + 4 < length states.old) × (bit < 2 ^ 31) }
    ensures { states.new ≡ flag_at bit s states.old }
{
    let k = state::WIDTH * s + state::FLAGS;
    states[k] = with_bit(states[k], bit);
}
