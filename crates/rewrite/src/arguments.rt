// The command line: `[--token RULE TYPE].. FILE`.

ghost use Rattle.std.specs.Prelude.{◌-◌, ◌≤◌, ◌<◌, IfOk, IfSome};

use crate::misuse::Misuse;
use crate::numbers;
use loading::arguments;
use std::alloc::AllocError;
use std::ops::Range;
use std::rt::Env;

// A token type, and the place of the word that names its rule, in digits. (Not these digits: a word of the command line stays where it is,
// and there may be tens of thousands.)
#[derive(Clone, Copy)]
pub struct Setting {
    pub rule_at: usize,
    pub token: i32,
}

// What is asked for: a rewrite of a file, with these token types set in this order, or the usage.
#[derive(Drop)]
pub enum Request {
    Rewrite {
        file: Vec<u8>,
        settings: Vec<Setting>,
    },
    Help,
}

// The next word of the command line; empty where it is longer than 4096 bytes.
fn next_word(
    rt: &(impl Env + AllocGlobal),
    places: &mut Range<usize>,
) -> Result<Option<Vec<u8>>, AllocError>
    ensures ends { places.new.end - places.new.start ≤ places.old.end - places.old.start }
    ensures taken { IfOk result (λ w. IfSome w (λ _. places.new.end - places.new.start < places.old.end - places.old.start)) }
{
    let Some(i) = places.next() else {
        return Ok(None);
    };
    let mut space = [0u8; 4096];
    let n = arguments::get(rt, i, &mut space);
    Ok(Some(Vec::from_slice(rt.alloc(), &space[..n])?))
}

// The rule and the token type behind `--token`.
fn take_setting(rt: &(impl Env + AllocGlobal), places: &mut Range<usize>) -> Result<Setting, Misuse>
    ensures { places.new.end - places.new.start ≤ places.old.end - places.old.start }
{
    let rule_at = places.start;
    let word = next_word(rt, places)?.ok_or(Misuse::NoRule)?;
    if numbers::natural_of(&word).is_none() {
        return Err(Misuse::WrongRule(word));
    }
    let word = next_word(rt, places)?.ok_or(Misuse::NoType)?;
    let Some(token) = numbers::token_of(&word) else {
        return Err(Misuse::WrongType(word));
    };
    Ok(Setting { rule_at, token })
}

// A word that is no option is the file, once.
fn take_file(file: &mut Option<Vec<u8>>, word: Vec<u8>) -> Result<(), Misuse> {
    if word.is_empty() {
        return Err(Misuse::NoName);
    }
    if file.is_some() {
        return Err(Misuse::SecondFile(word));
    }
    *file = Some(word);
    Ok(())
}

// All of it. (A `while let`: an option takes the two words behind it.)
pub fn asked(rt: &(impl Env + AllocGlobal)) -> Result<Request, Misuse> {
    let mut places = 1..arguments::count(rt);
    let mut file = None;
    let mut settings = Vec::new(rt.alloc());
    while let Some(word) = next_word(rt, &mut places)? {
        match word.as_slice() {
            b"--token" => settings.push(take_setting(rt, &mut places)?)?,
            b"--help" => return Ok(Request::Help),
            [b'-', ..] => return Err(Misuse::UnknownOption(word)),
            _ => take_file(&mut file, word)?,
        }
    }
    let file = file.ok_or(Misuse::NoFile)?;
    Ok(Request::Rewrite { file, settings })
}
