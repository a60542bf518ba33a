// Document 02, R-1, "Write the words for a set of lent tables": the words of the one fixed form, put into a lent output.

#![tactic(auto)]

mod counted;
mod flagged;
mod putting;
mod records;
mod set_words;

ghost use Rattle.std.specs.Prelude.{◌≡◌, List, [], ◌∷◌, ℕ, ◌≤◌, ◌^◌, ℤ, pos, length};
ghost use Rattle.format.specs.Writing.{rows_of, words_of, writing};
ghost use Rattle.tables.specs.Records.{words_in, counts_with};
ghost use Rattle.writing.specs.Laid.{Lays};
ghost use Rattle.writing.specs.Parts.{in_sets};
ghost use Rattle.writing.specs.Whole.{read_off, answer};

use crate::records::{Actions, Edges, Names, Rules, States};
use format::Written;
use format::reason::Reason;
use tables::records::Records;
use tables::rows::Rows;

// Version 4, a lexer, and the max token type.
fn write_header(token: i32, out: &mut [i32]) -> usize
    ensures { Lays 3 0 (pos 4 ∷ pos 0 ∷ token ∷ []) out.old out.new result }
{
    let grammar = putting::put_number(out, 0, 4);
    let at = putting::put_number(out, grammar, 0);
    putting::put(out, at, token)
}

// All words, from the output's start on, as far as it goes: the first `own` edges are those that are not derived. Answers how many they are.
pub fn write_words(records: &Records, own: usize, token: i32, out: &mut [i32]) -> usize
    requires within { own ≤ records.now.net.edges.count }
    requires in_a_row { in_sets (rows_of 2 records.now.sets.count records.now.sets.words.now) ≤ records.now.ranges.count }
    ensures { Lays (2 ^ 40) 0 (words_of (read_off (words_in records.now) (counts_with own records.now) token)) out.old out.new result }
{
    let net = &records.net;
    let edges = Rows {
        words: net.edges.words,
        count: own,
    };
    let states_at = write_header(token, out);
    let ones_at = counted::write_records::<States, 8>(&net.states, out, states_at);
    let twos_at = counted::write_flagged(&net.states, 1, out, ones_at);
    let rules_at = counted::write_flagged(&net.states, 2, out, twos_at);
    let modes_at = counted::write_records::<Rules, 3>(&net.rules, out, rules_at);
    let sets_at = counted::write_records::<Names, 1>(&records.modes, out, modes_at);
    let edges_at = set_words::write_sets(&records.sets, &records.ranges, out, sets_at);
    let decisions_at = counted::write_records::<Edges, 8>(&edges, out, edges_at);
    let actions_at = counted::write_records::<Names, 1>(&records.decisions, out, decisions_at);
    counted::write_records::<Actions, 3>(&records.actions, out, actions_at)
}

// The answer once the n words are put: "16 exactly when the output is too short", which is then all zero; else the output behind them is.
pub fn finish(out: &mut [i32], n: usize) -> Written
    ensures { (most : ℕ) (ws old : List ℤ) → Lays most 0 ws old out.old n
        → writing result out.new ≡ answer ws (length old) }
{
    if out.len() < n {
        tables::clear(out);
        return Err(words::bare(Reason::ShortOutput as u32));
    }
    tables::clear(&mut out[n..]);
    Ok(n)
}
