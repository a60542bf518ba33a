// Document 02, R-1, "Turn tables back into words": the whole of it. First refusal 15, then the words, then refusal 16.

#![tactic(auto)]

ghost use Rattle.std.specs.Prelude.{◌≡◌, [], length};
ghost use Rattle.format.specs.Tables.{nine};
ghost use Rattle.format.specs.Writing.{Writes, writing, unwritten};

use format::Written;
use format::reason::Reason;

mod fine;
mod linked;
mod listed;

// Refusal 15; every word of the output is 0.
fn unwritable(out: &mut [i32]) -> Written
    ensures { writing result out.new ≡ unwritten 15 (length out.old) }
{
    tables::clear(out);
    Err(words::bare(Reason::Unwritable as u32))
}

// Whatever the tables, the counts and the output hold: the answer that is meant, and every word of the output.
pub fn write(
    states: &[i32],
    states_count: usize,
    edges: &[i32],
    edges_count: usize,
    ranges: &[i32],
    ranges_count: usize,
    sets: &[i32],
    sets_count: usize,
    rules: &[i32],
    rules_count: usize,
    modes: &[i32],
    modes_count: usize,
    decisions: &[i32],
    decisions_count: usize,
    actions: &[i32],
    actions_count: usize,
    max_token_type: i32,
    out: &mut [i32],
) -> Written
    ensures { Writes
        (nine states.now edges.now ranges.now sets.now rules.now modes.now decisions.now actions.now [])
        (nine states_count edges_count ranges_count sets_count rules_count modes_count decisions_count actions_count 0) max_token_type (length out.old) (writing result out.new) }
{
    let listed = listed::records(
        states,
        states_count,
        edges,
        edges_count,
        ranges,
        ranges_count,
        sets,
        sets_count,
        rules,
        rules_count,
        modes,
        modes_count,
        decisions,
        decisions_count,
        actions,
        actions_count,
    );
    let Some(records) = listed else {
        return unwritable(out);
    };
    if !fine::fine(&records) {
        return unwritable(out);
    }
    let own = wiring::marks::own_count(&records.net.edges);
    let n = writing::write_words(&records, own, max_token_type, out);
    writing::finish(out, n)
}
