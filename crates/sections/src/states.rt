// Fields 5 to 8: one state, as its eight words.
// From the Rust's atn/serialized.rs: `deserialize_states`, `decode_state_kind`.

ghost use Rattle.std.specs.Prelude.{◌≡◌, ℕ, ◌<◌, get_or};
ghost use Rattle.format.specs.Reading.{Table, word, run, spot, known};
ghost use Rattle.format.specs.Sections.{state_of, follows, linked, following, state};
ghost use Rattle.format.specs.Kinds.{state_number};
ghost use Rattle.words.specs.Answers.{outcome};
ghost use Rattle.inplace.specs.Rows.{state_row};
ghost use Rattle.sections.specs.Rows.{as_row, numbered};

use format::Spot;
use format::kinds::StateKind;
use format::reason::Reason;
use words::Read;

// The record of a state that has no flag and no edge yet.
fn state_row(kind: StateKind, rule: i32, end: i32, back: i32) -> [i32; 8]
    ensures { result ≡ state_row (state_of (state_number kind) rule end back) }
{
    [kind as i32, rule, end, back, 0, -1, -1, 0]
}

// The state's type, or why there is no such state.
fn decode_state_kind(record: usize, words: &[i32], at: usize) -> Read<StateKind>
    ensures { (rooms : Table → ℕ) → numbered state_number result ≡ run (word (spot 5 «record») (known 6 0 12 (spot 5 «record»))) words.now rooms at }
{
    let spot = Spot { field: 5, record };
    let (word, next) = words::read(words, at, spot)?;
    match StateKind::try_from(word) {
        Ok(kind) => Ok((kind, next)),
        Err(_) => Err(words::refused(Reason::UnknownState as u32, spot, at, word)),
    }
}

// A state that two words follow, of which the rule's is read: the other is a loop back after a loop's end, else a block end.
fn deserialize_link(
    kind: StateKind,
    rule: i32,
    record: usize,
    words: &[i32],
    at: usize,
) -> Read<[i32; 8]>
    ensures { (rooms : Table → ℕ) → outcome result ≡ run (as_row (linked «record» (state_number kind) rule)) words.now rooms at }
{
    if kind == StateKind::LoopEnd {
        let (back, next) = words::read_usize(words, at, Spot { field: 7, record })?;
        Ok((state_row(kind, rule, -1, words::word_of(back)), next))
    } else {
        let (end, next) = words::read_usize(words, at, Spot { field: 8, record })?;
        Ok((state_row(kind, rule, words::word_of(end), -1), next))
    }
}

// A state that a rule's word follows, and how many words do.
fn deserialize_rule_index(
    kind: StateKind,
    follow: usize,
    record: usize,
    words: &[i32],
    at: usize,
) -> Read<[i32; 8]>
    requires { 0 < follow }
    ensures { (rooms : Table → ℕ) → outcome result ≡ run (as_row (following «record» follow (state_number kind))) words.now rooms at }
{
    let (word, next) = words::read(words, at, Spot { field: 6, record })?;
    let rule = words::or_none(word);
    if follow == 1 {
        return Ok((state_row(kind, rule, -1, -1), next));
    }
    deserialize_link(kind, rule, record, words, next)
}

// A state whose type is read.
fn deserialize_following(kind: StateKind, record: usize, words: &[i32], at: usize) -> Read<[i32; 8]>
    ensures { (rooms : Table → ℕ) → outcome result ≡ run (as_row (following «record» (get_or follows (state_number kind) 0) (state_number kind))) words.now rooms at }
{
    let follow = format::words_after(kind as usize);
    if follow == 0 {
        Ok((state_row(kind, -1, -1, -1), at))
    } else {
        deserialize_rule_index(kind, follow, record, words, at)
    }
}

// One state's words.
pub fn deserialize_state(record: usize, words: &[i32], at: usize) -> Read<[i32; 8]>
    ensures { (rooms : Table → ℕ) → outcome result ≡ run (as_row (state «record»)) words.now rooms at }
{
    let (kind, next) = decode_state_kind(record, words, at)?;
    deserialize_following(kind, record, words, next)
}
