// What was decoded, held to what is stored.

ghost use Rattle.std.specs.Prelude.{◌≡◌};
ghost use Rattle.replay.specs.Compare.{word_at, holds};

// The word at a place; 0 where there is none.
fn word(words: &[i32], at: usize) -> i32
    ensures { result ≡ word_at words.now at }
{
    words.get(at).copied().unwrap_or(0)
}

// Whether the table holds the stored words, and zeros behind them.
pub fn holds_words(table: &[i32], expected: &[i32]) -> bool
    ensures { result ≡ holds table.now expected.now }
{
    expected.len() <= table.len()
        && (0..table.len()).all(|at| word(table, at) == word(expected, at))
}
