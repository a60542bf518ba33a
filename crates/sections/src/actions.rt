// Fields 33 to 35: one lexer action, as its three words.
// From the Rust's atn/serialized.rs: `deserialize_lexer_actions`, `decode_lexer_action`.

ghost use Rattle.std.specs.Prelude.{◌≡◌, List, [], ◌∷◌, ℕ, eqb, ℤ, pos};
ghost use Rattle.format.specs.Reading.{Table, pick, run};
ghost use Rattle.format.specs.Sections.{among, action};
ghost use Rattle.format.specs.Kinds.{action_number};
ghost use Rattle.words.specs.Answers.{outcome};
ghost use Rattle.sections.specs.Rows.{action_row, decoded};

use format::Spot;
use format::kinds::ActionKind;
use format::reason::Reason;
use words::Read;

// The types that keep d1.
fn first_kept(kind: ActionKind, d1: i32) -> i32
    ensures { result ≡ pick (among (action_number kind) (0 ∷ 1 ∷ 2 ∷ 5 ∷ 7 ∷ [])) d1 (pos 0) }
{
    match kind {
        ActionKind::Channel
        | ActionKind::Custom
        | ActionKind::Mode
        | ActionKind::PushMode
        | ActionKind::Type => d1,
        ActionKind::More | ActionKind::PopMode | ActionKind::Skip => 0,
    }
}

// A custom action keeps d2 as well.
fn second_kept(kind: ActionKind, d2: i32) -> i32
    ensures { result ≡ pick (eqb (action_number kind) 1) d2 (pos 0) }
{
    match kind {
        ActionKind::Custom => d2,
        _ => 0,
    }
}

// The three words that were read from the place on: what the type keeps of them, or why there is no such action.
fn decode_lexer_action(
    word: i32,
    d1: i32,
    d2: i32,
    record: usize,
    place: usize,
    next: usize,
) -> Read<[i32; 3]>
    ensures { (ws : List ℤ) (rooms : Table → ℕ) → outcome result ≡ run (action_row (decoded «record» place word d1 d2)) ws rooms next }
{
    match ActionKind::try_from(word) {
        Ok(kind) => Ok(([word, first_kept(kind, d1), second_kept(kind, d2)], next)),
        Err(_) => {
            let spot = Spot { field: 33, record };
            Err(words::refused(Reason::UnknownAction as u32, spot, place, word))
        }
    }
}

// One action's words.
pub fn deserialize_lexer_action(record: usize, words: &[i32], at: usize) -> Read<[i32; 3]>
    ensures { (rooms : Table → ℕ) → outcome result ≡ run (action_row (action «record»)) words.now rooms at }
{
    let (kind, second) = words::read(words, at, Spot { field: 33, record })?;
    let (d1, third) = words::read(words, second, Spot { field: 34, record })?;
    let (d2, next) = words::read(words, third, Spot { field: 35, record })?;
    decode_lexer_action(kind, d1, d2, record, at, next)
}
