// Fields 1 to 3: version, grammar type, max token type.
// From the Rust's atn/serialized.rs: the head of `deserialize`.

ghost use Rattle.std.specs.Prelude.{◌≡◌, ℕ};
ghost use Rattle.format.specs.Reading.{Table, run};
ghost use Rattle.format.specs.Sections.{version, grammar};
ghost use Rattle.words.specs.Answers.{outcome};
ghost use Rattle.inplace.specs.Sections as spec;

use format::reason::Reason;
use format::{Counts, Spot};
use words::Read;

const VERSION: i32 = 4;

const LEXER: i32 = 0;

const PARSER: i32 = 1;

// The version, the only one that is read.
pub fn read_version(words: &[i32], at: usize) -> Read<i32>
    ensures { (rooms : Table → ℕ) → outcome result ≡ run version words.now rooms at }
{
    let spot = Spot {
        field: 1,
        record: 0,
    };
    let (version, next) = words::read(words, at, spot)?;
    if version == VERSION {
        Ok((version, next))
    } else {
        Err(words::refused(Reason::WrongVersion as u32, spot, at, version))
    }
}

// The grammar type, a lexer's.
pub fn read_grammar_type(words: &[i32], at: usize) -> Read<i32>
    ensures { (rooms : Table → ℕ) → outcome result ≡ run grammar words.now rooms at }
{
    let spot = Spot {
        field: 2,
        record: 0,
    };
    let (grammar, next) = words::read(words, at, spot)?;
    if grammar == LEXER {
        Ok((grammar, next))
    } else if grammar == PARSER {
        Err(words::refused(Reason::ParserGrammar as u32, spot, at, grammar))
    } else {
        Err(words::refused(Reason::UnknownGrammar as u32, spot, at, grammar))
    }
}

// No record yet: the max token type, and the place behind it.
pub fn no_counts(token: i32, next: usize) -> Counts
    ensures { result ≡ spec.no_counts token next }
{
    Counts {
        words: next,
        token,
        states: 0,
        edges: 0,
        derived: 0,
        ranges: 0,
        sets: 0,
        rules: 0,
        modes: 0,
        decisions: 0,
        actions: 0,
    }
}
