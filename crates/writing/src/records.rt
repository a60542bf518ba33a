// The words of one record (document 01, "Reading order and fields"; document 02, R-1, "One fixed form").
// A local is the place of the word that it is named after.

ghost use Rattle.std.specs.Prelude.{◌≡◌, [], ◌∷◌, ◌<◌, ◌^◌};
ghost use Rattle.format.specs.Tables.{state_word, range_words, action_words};
ghost use Rattle.format.specs.Writing.{state_form, rule_form, edge_form, state_back, state_named, rule_back, edge_back, range_back, action_back, link};
ghost use Rattle.writing.specs.Laid.{Lays};
ghost use Rattle.writing.specs.Parts.{call_form, plain_form};

use crate::counted::Record;
use crate::putting;
use format::kinds::{EdgeKind, StateKind};
use format::{action, edge, name, range, rule, state};

// The word that may follow a state's rule: loop back after type 12, else block end.
fn write_link(row: &[i32; state::WIDTH], out: &mut [i32], at: usize) -> usize
    requires { at < 2 ^ 56 }
    ensures { Lays 1 at (link (state_back row.now) ∷ []) out.old out.new result }
{
    if tables::size_at(row, state::KIND) == StateKind::LoopEnd as usize {
        return putting::put(out, at, row[state::BACK]);
    }
    putting::put(out, at, row[state::END])
}

// A state: its type, and so many words as follow that.
pub struct States;

impl Record<8> for States {
    ghost form = { λ x. state_form (state_back x) };

    fn write(row: &[i32; state::WIDTH], out: &mut [i32], at: usize) -> usize {
        let follow = format::words_after(tables::size_at(row, state::KIND));
        let rule = putting::put_size(out, at, row[state::KIND]);
        if follow == 0 {
            return rule;
        }
        let link = putting::put(out, rule, row[state::RULE]);
        if follow == 1 {
            return link;
        }
        write_link(row, out, link)
    }
}

// A rule: its start and its token type.
pub struct Rules;

impl Record<3> for Rules {
    ghost form = { λ x. rule_form (rule_back x) };

    fn write(row: &[i32; rule::WIDTH], out: &mut [i32], at: usize) -> usize {
        let token = putting::put_size(out, at, row[rule::START]);
        putting::put(out, token, row[rule::TOKEN])
    }
}

// A range: its start and its stop.
pub fn write_range(row: &[i32; range::WIDTH], out: &mut [i32], at: usize) -> usize
    requires { at < 2 ^ 50 }
    ensures { Lays 2 at (range_words (range_back row.now)) out.old out.new result }
{
    let stop = putting::put(out, at, row[range::START]);
    putting::put(out, stop, row[range::STOP])
}

// An action: its type and its two words.
pub struct Actions;

impl Record<3> for Actions {
    ghost form = { λ x. action_words (action_back x) };

    fn write(row: &[i32; action::WIDTH], out: &mut [i32], at: usize) -> usize {
        let d1 = putting::put_size(out, at, row[action::KIND]);
        let d2 = putting::put(out, d1, row[action::D1]);
        putting::put(out, d2, row[action::D2])
    }
}

// A rule edge: its source, its follow state, its type, its target, p and r.
fn write_call(row: &[i32; edge::WIDTH], out: &mut [i32], at: usize) -> usize
    requires { at < 2 ^ 56 }
    ensures { Lays 6 at (call_form (edge_back row.now)) out.old out.new result }
{
    let follow = putting::put_size(out, at, row[edge::SOURCE]);
    let kind = putting::put(out, follow, row[edge::Q]);
    let target = putting::put_size(out, kind, row[edge::KIND]);
    let p = putting::put_size(out, target, row[edge::TARGET]);
    let r = putting::put(out, p, row[edge::P]);
    putting::put(out, r, row[edge::R])
}

// Any other edge: its source, its target, its type, p, q and r.
fn write_plain(row: &[i32; edge::WIDTH], out: &mut [i32], at: usize) -> usize
    requires { at < 2 ^ 56 }
    ensures { Lays 6 at (plain_form (edge_back row.now)) out.old out.new result }
{
    let target = putting::put_size(out, at, row[edge::SOURCE]);
    let kind = putting::put_size(out, target, row[edge::TARGET]);
    let p = putting::put_size(out, kind, row[edge::KIND]);
    let q = putting::put(out, p, row[edge::P]);
    let r = putting::put(out, q, row[edge::Q]);
    putting::put(out, r, row[edge::R])
}

// An edge.
pub struct Edges;

impl Record<8> for Edges {
    ghost form = { λ x. edge_form (edge_back x) };

    fn write(row: &[i32; edge::WIDTH], out: &mut [i32], at: usize) -> usize {
        if tables::size_at(row, edge::KIND) == EdgeKind::Rule as usize {
            return write_call(row, out, at);
        }
        write_plain(row, out, at)
    }
}

// A mode or a decision: its state.
pub struct Names;

impl Record<1> for Names {
    ghost form = { λ x. state_word (state_named x) };

    fn write(row: &[i32; name::WIDTH], out: &mut [i32], at: usize) -> usize {
        putting::put_size(out, at, row[name::STATE])
    }
}
