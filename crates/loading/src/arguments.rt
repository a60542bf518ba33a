// The words of the command line, as bytes, which need not be text.

ghost use Rattle.std.specs.Prelude.{◌≤◌, length};

use std::env::FillError;
use std::rt::Env;

// How many there are, the program's name with them.
pub fn count(rt: &impl Env) -> usize {
    for n in 0..usize::MAX {
        if let Err(FillError::NotPresent) = rt.arg(n, &mut []) {
            return n;
        }
    }
    usize::MAX
}

// Puts the i-th at the start of `out`, and answers its length; 0 where it is missing, or longer than `out`.
pub fn get(rt: &impl Env, i: usize, out: &mut [u8]) -> usize
    ensures { result ≤ length out.new }
{
    rt.arg(i, out).unwrap_or(0)
}
