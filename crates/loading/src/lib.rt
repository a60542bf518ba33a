// The bytes of a dialect file as words: a file holds little-endian 32-bit words, and nothing else. And what the programs read: `files` has
// a file's bytes, `arguments` the words of the command line.

#![tactic(auto)]

pub mod arguments;
pub mod dialect;
pub mod files;

ghost use Rattle.std.specs.Prelude.{◌≡◌, ◌/◌, min, length};
ghost use Rattle.loading.specs.Bytes.{word_at, filled};

// Four bytes as a word, the least byte first.
fn word_of(bytes: [u8; 4]) -> i32
    ensures { result ≡ word_at bytes 0 }
{
    i32::from_le_bytes(bytes)
}

// Puts the bytes' words at the start of `out`, as many as it has room for, and answers how many. Bytes that do not fill a last word
// are left over, and so are words of `out` behind the last.
pub fn words_of(bytes: &[u8], out: &mut [i32]) -> usize
    ensures counted { result ≡ min (length bytes.now / 4) (length out.old) }
    ensures filled { out.new ≡ filled result bytes.now out.old }
{
    let (words, _) = bytes.as_chunks::<4>();
    let n = words.len().min(out.len());
    for (i, word) in words[..n].iter().enumerate() {
        out[i] = word_of(*word);
    }
    n
}
