// A whole dialect file: at most 131,072 bytes, which fill its words. What isn't one has a fault, which prints itself.

ghost use Rattle.std.specs.Prelude.{◌≡◌, ◌≢◌, ◌/◌, ◌%◌, ◌<◌, ◌≤◌, ◌↔◌, min, length, IfOk, IsOk, OnErr, IsErrOf};
ghost use Rattle.loading.specs.Bytes.{filled};

use crate::files;
use std::fmt;
use std::fmt::Display;
use std::rt::Files;

// The most bytes of a file, and its words.
pub const BYTES: usize = 131072;

pub const WORDS: usize = 32768;

// One byte more than a dialect may have, to see that there is none.
const ROOM: usize = 131073;

// Why a file is no dialect.
#[derive(Clone, Copy, Debug, PartialEq, Eq)]
pub enum Fault {
    Missing,
    Unreadable,
    TooLong,
    Ragged,
}

impl Display for Fault {
    fn fmt<W: fmt::Write>(&self, f: &mut fmt::Formatter<W>) -> fmt::Result {
        match self {
            Fault::Missing => write!(f, "missing, or it can't be opened"),
            Fault::Unreadable => write!(f, "it can't be read"),
            Fault::TooLong => write!(f, "too long: a dialect has at most {BYTES} bytes"),
            Fault::Ragged => write!(f, "ragged: its last bytes don't fill a 32-bit word"),
        }
    }
}

// The words of a whole file's bytes, at the start of `out`.
pub fn words_in(bytes: &[u8], out: &mut [i32]) -> Result<usize, Fault>
    ensures long { IsErrOf result Fault.TooLong ↔ (BYTES < length bytes.now) }
    ensures ragged { IsErrOf result Fault.Ragged ↔ ((length bytes.now ≤ BYTES) × (length bytes.now % 4 ≢ 0)) }
    ensures whole { IsOk result ↔ ((length bytes.now ≤ BYTES) × (length bytes.now % 4 ≡ 0)) }
    ensures counted { IfOk result (λ n. n ≡ min (length bytes.now / 4) (length out.old)) }
    ensures filled { IfOk result (λ n. out.new ≡ filled n bytes.now out.old) }
    ensures err { OnErr result (out.new ≡ out.old) }
{
    if bytes.len() > BYTES {
        return Err(Fault::TooLong);
    }
    if bytes.len() % 4 != 0 {
        return Err(Fault::Ragged);
    }
    Ok(crate::words_of(bytes, out))
}

// The words of the file of that name, at the start of `out`.
pub fn read<R: Files>(rt: &R, name: &[u8], out: &mut [i32]) -> Result<usize, Fault>
    ensures { IfOk result (λ n. n ≤ length out.new) }
{
    let mut file = files::open(rt, name).ok_or(Fault::Missing)?;
    let mut bytes = [0u8; ROOM];
    let n = files::read_full(&mut file, &mut bytes).map_err(|_| Fault::Unreadable)?;
    words_in(&bytes[..n], out)
}
