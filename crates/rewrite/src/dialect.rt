// A dialect file: read, decoded, its token types set, and written. Document 02, R-1.

use crate::arguments::Setting;
use crate::{numbers, output};
use format::{Refusal, rule};
use lending::Tables;
use loading::arguments;
use loading::dialect::WORDS;
use printing::refusals::{Undecoded, Unwritten};
use std::alloc::AllocError;
use std::fmt;
use std::fmt::Display;
use std::rt::{Env, Files};

// At most twice as many words are written as were read: a set that had the EOF flag may get a range more, two words, and was read from two
// words at least, its interval count and the flag; nothing else grows.
const WRITTEN: usize = 65536;

// Why nothing is put out, or not all: the file is no dialect, the decoder refuses it, or the writer, a rule is not listed, or standard
// output can't be written to.
#[derive(Drop)]
pub enum Fault {
    File(loading::dialect::Fault),
    Undecoded(Refusal),
    Unwritten(Refusal),
    Unlisted { rule: String, listed: usize },
    Overlong,
    Output,
    OutOfMemory,
}

impl Fault {
    // What its line is about.
    pub fn about<'a>(&self, file: &'a [u8]) -> &'a [u8] {
        match self {
            Fault::File(_) | Fault::Undecoded(_) | Fault::Unwritten(_) => file,
            _ => b"rewrite",
        }
    }
}

impl Display for Fault {
    fn fmt<W: fmt::Write>(&self, f: &mut fmt::Formatter<W>) -> fmt::Result {
        match self {
            Fault::File(fault) => write!(f, "{fault}"),
            Fault::Undecoded(refusal) => {
                let undecoded = Undecoded {
                    refusal: *refusal,
                    room: WORDS,
                };
                write!(f, "{undecoded}")
            }
            Fault::Unwritten(refusal) => write!(f, "{}", Unwritten(*refusal)),
            Fault::Unlisted { rule, listed } => write!(
                f,
                "--token: rule {rule} is not listed; rules of this dialect, numbered from 0: {listed}"
            ),
            Fault::Overlong => write!(f, "more words were written than there is room for"),
            Fault::Output => write!(
                f,
                "standard output can't be written to, and what stands there is not whole"
            ),
            Fault::OutOfMemory => write!(f, "there is no memory for the tables"),
        }
    }
}

impl From<loading::dialect::Fault> for Fault {
    fn from(fault: loading::dialect::Fault) -> Self {
        Fault::File(fault)
    }
}

impl From<AllocError> for Fault {
    fn from(_error: AllocError) -> Self {
        Fault::OutOfMemory
    }
}

// A rule's token type, in the first records of the rules' table. The word that names the rule was looked at before.
fn set(
    rt: &(impl Env + AllocGlobal),
    rules: &mut [i32],
    listed: usize,
    setting: Setting,
) -> Result<(), Fault> {
    let mut space = [0u8; 4096];
    let n = arguments::get(rt, setting.rule_at, &mut space);
    let digits = numbers::natural_of(&space[..n]).unwrap_or("");
    let (records, _) = rules.as_chunks_mut::<{ rule::WIDTH }>();
    match digits.parse::<usize>() {
        Ok(n) if n < listed && n < records.len() => {
            records[n][rule::TOKEN] = setting.token;
            Ok(())
        }
        _ => {
            let rule = String::from_str(rt.alloc(), digits)?;
            Err(Fault::Unlisted { rule, listed })
        }
    }
}

// The file, rewritten; of two token types for one rule the last counts. Each table has room for as many records as a dialect can have
// words.
pub fn rewrite(
    rt: &(impl Files + Print + Env + AllocGlobal),
    file: &[u8],
    settings: Vec<Setting>,
) -> Result<(), Fault> {
    let mut words = [0i32; WORDS];
    let n = loading::dialect::read(rt, file, &mut words)?;
    let mut tables = Tables::for_records(rt.alloc(), WORDS)?;
    let counts = tables.decode(&words[..n]).map_err(Fault::Undecoded)?;
    for setting in settings {
        set(rt, &mut tables.rules, counts.rules, setting)?;
    }
    let mut out = [0i32; WRITTEN];
    let n = tables.write(counts, &mut out).map_err(Fault::Unwritten)?;
    let words = out.get(..n).ok_or(Fault::Overlong)?;
    output::put(rt, words).map_err(|_| Fault::Output)
}
