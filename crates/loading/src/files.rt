// A file's bytes, as far as there is room for them. A clause can name the bytes of a reader that says which it has; a file of the system
// doesn't.

ghost use Rattle.std.specs.Prelude.{◌<◌, length, take, IfOk};
ghost use Rattle.std.specs.Io.{ReadsAtMost};
ghost use Rattle.std.specs.Io.KnownBytes.{Consumes, IsAtEnd};

use std::io;
use std::io::Read;
use std::rt::Files;

// A file, opened to be read. A name that is no UTF-8 names none.
pub fn open<R: Files>(rt: &R, name: &[u8]) -> Option<R::File> {
    let Ok(path) = str::from_utf8(name) else {
        return None;
    };
    std::fs::open(rt, path).ok()
}

// Puts bytes at the start of `out` until it is full or there are no more, and answers how many. (A `while`, since each read says how far it
// came, and std's `read_to_end` and `read_exact` say less of an end or an error in mid-stream.)
pub fn read_full<R: Read>(from: &mut R, out: &mut [u8]) -> io::Result<usize>
    ensures counted { ReadsAtMost result out.new }
    ensures bytes { IfOk result (λ n. Consumes (R.remaining from.old) (R.remaining from.new) (take n out.new)) }
    ensures end { IfOk result (λ n. n < length out.new → IsAtEnd (R.remaining from.new)) }
{
    let mut done = 0;
    while done < out.len() {
        let n = from.read(&mut out[done..])?;
        if n == 0 {
            break;
        }
        done += n;
    }
    Ok(done)
}
