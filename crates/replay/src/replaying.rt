// One stored case after another: the list is decoded into tables as the case lends them, and what comes out is held to what is stored.

use crate::stored::{Case, Cases};
use crate::tally::Tally;
use crate::{compare, written};
use lending::Tables;
use std::alloc::{AllocError, Global};
use std::io;

// A table of a stored length, or of the most words that any case lends of it; it holds other words before the decode.
fn dirty(alloc: Global, length: usize, most: usize) -> Result<Vec<i32>, AllocError> {
    vec![in alloc; 7; length.min(most)]
}

fn lend(alloc: Global, lengths: [usize; 9]) -> Result<Tables, AllocError> {
    let [
        states,
        edges,
        ranges,
        sets,
        rules,
        modes,
        decisions,
        actions,
        scratch,
    ] = lengths;
    Ok(Tables {
        states: dirty(alloc, states, 16384)?,
        edges: dirty(alloc, edges, 16384)?,
        ranges: dirty(alloc, ranges, 16384)?,
        sets: dirty(alloc, sets, 2048)?,
        rules: dirty(alloc, rules, 2048)?,
        modes: dirty(alloc, modes, 1024)?,
        decisions: dirty(alloc, decisions, 1024)?,
        actions: dirty(alloc, actions, 1024)?,
        scratch: dirty(alloc, scratch, 8192)?,
    })
}

// Whether the tables hold the stored words.
fn held(tables: &Tables, stored: [&[i32]; 9]) -> bool {
    let [
        states,
        edges,
        ranges,
        sets,
        rules,
        modes,
        decisions,
        actions,
        scratch,
    ] = stored;
    compare::holds_words(&tables.states, states)
        && compare::holds_words(&tables.edges, edges)
        && compare::holds_words(&tables.ranges, ranges)
        && compare::holds_words(&tables.sets, sets)
        && compare::holds_words(&tables.rules, rules)
        && compare::holds_words(&tables.modes, modes)
        && compare::holds_words(&tables.decisions, decisions)
        && compare::holds_words(&tables.actions, actions)
        && compare::holds_words(&tables.scratch, scratch)
}

// Whether the answer, the tables and the words that are written of these are the stored ones.
fn agrees(alloc: Global, case: &Case) -> Result<bool, AllocError> {
    let mut tables = lend(alloc, case.lengths)?;
    let answer = tables.decode(case.words);
    let same = answer == case.answer && held(&tables, case.tables);
    Ok(same && written::held(alloc, answer, &tables, case.written)?)
}

fn replay(rt: &(impl Print + AllocGlobal), tally: &mut Tally, case: &Case) -> io::Result<()> {
    let same = agrees(rt.alloc(), case)?;
    if !same {
        println!(rt; "differs: list {}", tally.lists)?;
    }
    tally.count(case, same);
    Ok(())
}

// Every case of the block.
pub fn replay_block(
    rt: &(impl Print + AllocGlobal),
    tally: &mut Tally,
    block: &[i32],
) -> io::Result<()> {
    for case in Cases::of(block) {
        replay(rt, tally, &case)?;
    }
    Ok(())
}
