// Document 01, "Reading order and fields": the header, the sections that fill one table each, the flags and the rules' stops.
// Each takes the answer so far, and passes a refusal on; `inplace` has the definition of what each does.
// From the Rust's atn/serialized.rs: `deserialize`'s header, `deserialize_states` to `deserialize_modes`, `deserialize_decisions`, `deserialize_lexer_actions`.

#![tactic(auto)]

ghost use Rattle.std.specs.Prelude.{List, ◌≡◌, ℕ, ◌*◌, ◌≤◌, ℤ, length};
ghost use Rattle.format.specs.Reading.{Table, States, Rules, Modes, Decisions, Actions, run};
ghost use Rattle.format.specs.Tables.{width};
ghost use Rattle.inplace.specs.Held.{held, onward};
ghost use Rattle.inplace.specs.Sections as spec;
ghost use Rattle.sections.specs.Tables.{StatesIn, RulesIn};

use format::{Decoded, Spot};
use records::Section;

mod actions;
mod filling;
mod flags;
mod header;
pub mod records;
mod states;
mod stops;

// The rules' stops by themselves: what is written from tables is held to them.
pub use stops::find_stops;

// The flags that a state is given here.
const NON_GREEDY: usize = 1;

const LEFT_RECURSIVE: usize = 2;

// Fields 1 to 3.
pub fn deserialize_header(words: &[i32], at: usize) -> Decoded
    ensures { (rooms : Table → ℕ) → held result tt ≡ run spec.header words.now rooms at }
{
    let spot = Spot {
        field: 3,
        record: 0,
    };
    let (_, second) = header::read_version(words, at)?;
    let (_, third) = header::read_grammar_type(words, second)?;
    let (token, next) = words::read(words, third, spot)?;
    Ok(header::no_counts(token, next))
}

// A count for which there is room, and so many records.
pub fn deserialize_section<S: Section>(
    sofar: Decoded,
    words: &[i32],
    table: &mut [i32],
    room: usize,
) -> Decoded
    requires { width S.fills * room ≤ length table.old }
    ensures { (rooms : Table → ℕ) → rooms S.fills ≡ room → held result table.new ≡ onward (spec.section S.fills) words.now rooms (held sofar table.old) }
{
    filling::fill_counted::<S>(sofar?, words, table, room)
}

// Fields 4 to 8.
pub fn deserialize_states(sofar: Decoded, words: &[i32], states: &mut [i32], room: usize) -> Decoded
    requires { 8 * room ≤ length states.old }
    ensures { (rooms : Table → ℕ) → rooms States ≡ room → held result states.new ≡ onward (spec.section States) words.now rooms (held sofar states.old) }
{
    deserialize_section::<records::States>(sofar, words, states, room)
}

// Fields 9 and 10.
pub fn deserialize_non_greedy_states(sofar: Decoded, words: &[i32], states: &mut [i32]) -> Decoded
    requires { StatesIn (length states.old) sofar }
    ensures { (rooms : Table → ℕ) → held result states.new ≡ onward (spec.flagging 1 9) words.now rooms (held sofar states.old) }
{
    flags::deserialize_flags(sofar, words, states, NON_GREEDY, 9)
}

// Fields 11 and 12.
pub fn deserialize_precedence_states(sofar: Decoded, words: &[i32], states: &mut [i32]) -> Decoded
    requires { StatesIn (length states.old) sofar }
    ensures { (rooms : Table → ℕ) → held result states.new ≡ onward (spec.flagging 2 11) words.now rooms (held sofar states.old) }
{
    flags::deserialize_flags(sofar, words, states, LEFT_RECURSIVE, 11)
}

// Fields 13 to 15.
pub fn deserialize_rules(sofar: Decoded, words: &[i32], rules: &mut [i32], room: usize) -> Decoded
    requires { 3 * room ≤ length rules.old }
    ensures { (rooms : Table → ℕ) → rooms Rules ≡ room → held result rules.new ≡ onward (spec.section Rules) words.now rooms (held sofar rules.old) }
{
    deserialize_section::<records::Rules>(sofar, words, rules, room)
}

// The rules' stops, among the states: no word is read.
pub fn find_rule_stops(sofar: Decoded, states: &[i32], rules: &mut [i32]) -> Decoded
    requires { StatesIn (length states.now) sofar × RulesIn (length rules.old) sofar }
    ensures { (ws : List ℤ) (rooms : Table → ℕ) → held result rules.new ≡ onward (spec.stopping states.now) ws rooms (held sofar rules.old) }
{
    let counts = sofar?;
    stops::find_stops(states, rules, counts.rules, counts.states);
    Ok(counts)
}

// Fields 16 and 17.
pub fn deserialize_modes(sofar: Decoded, words: &[i32], modes: &mut [i32], room: usize) -> Decoded
    requires { room ≤ length modes.old }
    ensures { (rooms : Table → ℕ) → rooms Modes ≡ room → held result modes.new ≡ onward (spec.section Modes) words.now rooms (held sofar modes.old) }
{
    deserialize_section::<records::Modes>(sofar, words, modes, room)
}

// Fields 30 and 31.
pub fn deserialize_decisions(
    sofar: Decoded,
    words: &[i32],
    decisions: &mut [i32],
    room: usize,
) -> Decoded
    requires { room ≤ length decisions.old }
    ensures { (rooms : Table → ℕ) → rooms Decisions ≡ room → held result decisions.new ≡ onward (spec.section Decisions) words.now rooms (held sofar decisions.old) }
{
    deserialize_section::<records::Decisions>(sofar, words, decisions, room)
}

// Fields 32 to 35.
pub fn deserialize_lexer_actions(
    sofar: Decoded,
    words: &[i32],
    actions: &mut [i32],
    room: usize,
) -> Decoded
    requires { 3 * room ≤ length actions.old }
    ensures { (rooms : Table → ℕ) → rooms Actions ≡ room → held result actions.new ≡ onward (spec.section Actions) words.now rooms (held sofar actions.old) }
{
    deserialize_section::<records::Actions>(sofar, words, actions, room)
}
