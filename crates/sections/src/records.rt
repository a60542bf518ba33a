// The sections that fill one table each: how many words their records have, at which field they are counted, and how one record is read.
// From the Rust's atn/serialized.rs: `deserialize_rules`, `deserialize_modes`, `deserialize_decisions`.

ghost use Rattle.std.specs.Prelude.{◌≡◌, ℕ, length};
ghost use Rattle.format.specs.Reading as reading;
ghost use Rattle.format.specs.Reading.{Table, run};
ghost use Rattle.format.specs.Tables.{width};
ghost use Rattle.words.specs.Answers.{told};
ghost use Rattle.inplace.specs.Sections as spec;
ghost use Rattle.sections.specs.Rows.{number_row};

use crate::{actions, states};
use format::{Counts, Spot, action, name, rule, state};
use words::Step;

// A section: a count, and so many records of the table that it fills.
pub trait Section {
    ghost fills: { Table };

    // Words per record.
    fn width() -> usize
        ensures { result ≡ width fills };

    // The field of the count.
    fn field() -> u32
        ensures { result ≡ spec.field_of fills };

    // The record with that number, into its words.
    fn deserialize_record(part: &mut [i32], record: usize, words: &[i32], at: usize) -> Step
        requires { length part.old ≡ width fills }
        ensures { (rooms : Table → ℕ) → told result part.new ≡ run (spec.row_of fills «record») words.now rooms at };

    // The counts with n records, and the place behind them.
    fn counted(counts: Counts, n: usize, next: usize) -> Counts
        ensures { result ≡ spec.counted fills counts n next };
}

// Fields 4 to 8.
#[derive(Clone, Copy)]
pub struct States;

impl Section for States {
    ghost fills = { reading.States };

    fn width() -> usize {
        state::WIDTH
    }

    fn field() -> u32 {
        4
    }

    fn deserialize_record(part: &mut [i32], record: usize, words: &[i32], at: usize) -> Step {
        let (row, next) = states::deserialize_state(record, words, at)?;
        part.copy_from_slice(&row);
        Ok(next)
    }

    fn counted(counts: Counts, n: usize, next: usize) -> Counts {
        Counts {
            words: next,
            states: n,
            ..counts
        }
    }
}

// Fields 13 to 15: a rule, whose stop is not known yet.
#[derive(Clone, Copy)]
pub struct Rules;

impl Section for Rules {
    ghost fills = { reading.Rules };

    fn width() -> usize {
        rule::WIDTH
    }

    fn field() -> u32 {
        13
    }

    fn deserialize_record(part: &mut [i32], record: usize, words: &[i32], at: usize) -> Step {
        let (start, next) = words::read_usize(words, at, Spot { field: 14, record })?;
        let (token, end) = words::read(words, next, Spot { field: 15, record })?;
        part.copy_from_slice(&[words::word_of(start), -1, token]);
        Ok(end)
    }

    fn counted(counts: Counts, n: usize, next: usize) -> Counts {
        Counts {
            words: next,
            rules: n,
            ..counts
        }
    }
}

// A state's number, the only word of a mode and of a decision.
fn deserialize_number(part: &mut [i32], words: &[i32], at: usize, spot: Spot) -> Step
    requires { length part.old ≡ 1 }
    ensures { (rooms : Table → ℕ) → told result part.new ≡ run (number_row spot) words.now rooms at }
{
    let (s, next) = words::read_usize(words, at, spot)?;
    part[name::STATE] = words::word_of(s);
    Ok(next)
}

// Fields 16 and 17.
#[derive(Clone, Copy)]
pub struct Modes;

impl Section for Modes {
    ghost fills = { reading.Modes };

    fn width() -> usize {
        name::WIDTH
    }

    fn field() -> u32 {
        16
    }

    fn deserialize_record(part: &mut [i32], record: usize, words: &[i32], at: usize) -> Step {
        deserialize_number(part, words, at, Spot { field: 17, record })
    }

    fn counted(counts: Counts, n: usize, next: usize) -> Counts {
        Counts {
            words: next,
            modes: n,
            ..counts
        }
    }
}

// Fields 30 and 31. (Beside `Modes`, since two fields and a count differ, and what is the same is `deserialize_number`.)
#[derive(Clone, Copy)]
pub struct Decisions;

impl Section for Decisions {
    ghost fills = { reading.Decisions };

    fn width() -> usize {
        name::WIDTH
    }

    fn field() -> u32 {
        30
    }

    fn deserialize_record(part: &mut [i32], record: usize, words: &[i32], at: usize) -> Step {
        deserialize_number(part, words, at, Spot { field: 31, record })
    }

    fn counted(counts: Counts, n: usize, next: usize) -> Counts {
        Counts {
            words: next,
            decisions: n,
            ..counts
        }
    }
}

// Fields 32 to 35.
#[derive(Clone, Copy)]
pub struct Actions;

impl Section for Actions {
    ghost fills = { reading.Actions };

    fn width() -> usize {
        action::WIDTH
    }

    fn field() -> u32 {
        32
    }

    fn deserialize_record(part: &mut [i32], record: usize, words: &[i32], at: usize) -> Step {
        let (row, next) = actions::deserialize_lexer_action(record, words, at)?;
        part.copy_from_slice(&row);
        Ok(next)
    }

    fn counted(counts: Counts, n: usize, next: usize) -> Counts {
        Counts {
            words: next,
            actions: n,
            ..counts
        }
    }
}
