// A dialect file: read, decoded, and shown, or one line that says why not.

use crate::dialect::Dialect;
use crate::{graph, page};
use lending::Tables;
use loading::dialect::WORDS;
use printing::refusals::Undecoded;
use std::io;
use std::rt::Files;

// The words, decoded and printed.
fn decode(
    rt: &impl Print,
    tables: &mut Tables,
    name: &[u8],
    words: &[i32],
    as_graph: bool,
) -> io::Result<()> {
    match tables.decode(words) {
        Ok(counts) => {
            let dialect = Dialect::new(tables, counts);
            if as_graph {
                graph::print(rt, &dialect)
            } else {
                page::print(rt, name, words.len(), &dialect)
            }
        }
        Err(refusal) => {
            let undecoded = Undecoded {
                refusal,
                room: WORDS,
            };
            printing::line(rt, name, undecoded)
        }
    }
}

// The tables of the file before, or new ones; each has room for as many records as a dialect can have words. (A decode asks nothing of what
// they held, and to lay them out anew takes ten times as long as to decode a small dialect.)
fn lend(
    rt: &(impl Print + AllocGlobal),
    kept: &mut Option<Tables>,
    name: &[u8],
    words: &[i32],
    as_graph: bool,
) -> io::Result<()> {
    let mut tables = match kept.take() {
        Some(tables) => tables,
        None => Tables::for_records(rt.alloc(), WORDS)?,
    };
    decode(rt, &mut tables, name, words, as_graph)?;
    *kept = Some(tables);
    Ok(())
}

// `kept` has tables as soon as a file was read whole.
pub fn show(
    rt: &(impl Print + Files + AllocGlobal),
    kept: &mut Option<Tables>,
    name: &[u8],
    as_graph: bool,
) -> io::Result<()> {
    let mut words = [0i32; WORDS];
    match loading::dialect::read(rt, name, &mut words) {
        Ok(n) => lend(rt, kept, name, &words[..n], as_graph),
        Err(fault) => printing::line(rt, name, fault),
    }
}
