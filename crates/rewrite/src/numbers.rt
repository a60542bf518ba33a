// Decimal numbers of the command line.

// The text, if it is a number from 0 on: digits alone, and at least one.
pub fn natural_of(text: &[u8]) -> Option<&str> {
    if text.is_empty() || !text.iter().all(|digit| digit.is_ascii_digit()) {
        return None;
    }
    str::from_utf8(text).ok()
}

// A token type: digits alone, or behind a minus. A plus, which `parse` takes, is none of them.
pub fn token_of(text: &[u8]) -> Option<i32> {
    match text {
        [b'+', ..] => None,
        _ => str::from_utf8(text).ok()?.parse().ok(),
    }
}
