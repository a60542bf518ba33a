// Words as bytes on standard output, four to a word, the least first, as crate `loading` reads them.

ghost use Rattle.std.specs.Prelude.{◌≡◌, ℕ, ◌+◌, ◌*◌, ◌≤◌, ◌<◌, pos, length, get_or};
ghost use Rattle.std.specs.Int.{cast_unsigned, w32};
ghost use Rattle.rewrite.specs.Counts.{IsPrefixLen};
ghost use Rattle.loading.specs.Bytes.{word_at};
ghost use Rattle.rewrite.specs.Spelled.{spelled};

use std::io;

// The i-th word becomes this one.
fn put_word(word: i32, out: &mut [u8], i: usize)
    requires { 4 * i + 4 ≤ length out.old }
    ensures { out.new ≡ spelled out.old i (cast_unsigned w32 word) }
{
    let [a, b, c, d] = word.to_le_bytes();
    let at = 4 * i;
    out[at] = a;
    out[at + 1] = b;
    out[at + 2] = c;
    out[at + 3] = d;
}

// Puts the words' bytes at the start of `out`, for as many words as it has room for, and answers how many bytes.
fn bytes_of(words: &[i32], out: &mut [u8]) -> usize
    ensures counted { IsPrefixLen result out.new }
    ensures spelled { (k : ℕ) → 4 * k < result → word_at out.new k ≡ get_or words.now k (pos 0) }
{
    let n = words.len().min(out.len() / 4);
    for (i, word) in words[..n].iter().enumerate() {
        put_word(*word, out, i);
    }
    4 * n
}

// Puts out all of the words, 65,536 at most.
pub fn put(rt: &impl Print, words: &[i32]) -> io::Result<()> {
    let mut bytes = [0u8; 262144];
    let n = bytes_of(words, &mut bytes);
    rt.write_all(&bytes[..n])
}
