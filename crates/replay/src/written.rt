// The decoded tables, turned back into words (document 02, R-1): the answer and every word of the output, held to the stored words.

use crate::compare;
use format::reason::Reason;
use format::{Counts, Decoded};
use lending::Tables;
use std::alloc::{AllocError, Global};

// The most words that any case is written into.
const MOST: usize = 8192;

// The counts to write with where the list was refused.
const NO_RECORDS: Counts = Counts {
    words: 0,
    token: 0,
    states: 0,
    edges: 0,
    derived: 0,
    ranges: 0,
    sets: 0,
    rules: 0,
    modes: 0,
    decisions: 0,
    actions: 0,
};

// The tables, written into an output of so many words, which held other words before. The number of the words, the words, and zeros behind
// them; 16 ("exactly when the output is too short"; refusals "hold 0 in what isn't named") and zeros alone where the output is shorter
// than the words.
fn held_in(
    alloc: Global,
    room: usize,
    counts: Counts,
    tables: &Tables,
    form: &[i32],
) -> Result<bool, AllocError> {
    let mut out = vec![in alloc; 7; room.min(MOST)]?;
    Ok(match tables.write(counts, &mut out) {
        Ok(n) => n == form.len() && compare::holds_words(&out, form),
        Err(refusal) => {
            out.len() < form.len()
                && refusal == words::bare(Reason::ShortOutput.number())
                && compare::holds_words(&out, &[])
        }
    })
}

// Once into one word too few, and once into three words more than are stored; not at all where none are.
pub fn held(
    alloc: Global,
    answer: Decoded,
    tables: &Tables,
    form: &[i32],
) -> Result<bool, AllocError> {
    if form.is_empty() {
        return Ok(true);
    }
    let counts = answer.unwrap_or(NO_RECORDS);
    let short = held_in(alloc, form.len() - 1, counts, tables, form)?;
    let long = held_in(alloc, form.len().saturating_add(3), counts, tables, form)?;
    Ok(short && long)
}
