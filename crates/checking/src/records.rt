// Document 02, R-1, refusal 15: records by themselves. `&` makes every test, whatever the others say: each is one look at a word, and there
// is one way through them. A `match` has an arm for each type, as the definition has a row (document 01, "Edge types").

ghost use Rattle.std.specs.Prelude.{◌≡◌, ◌&&◌, ◌<◌};
ghost use Rattle.format.specs.Places.{st_rule, ed_p, ed_q, ed_r, ac_d1, ac_d2};
ghost use Rattle.format.specs.Writing.{cell, state_back, edge_back};
ghost use Rattle.rewriting.specs.Formed.{natural, nought, absent, state_read, args_read};
ghost use Rattle.rewriting.specs.Passes.{state_fine, edge_fine, action_fine};
ghost use Rattle.checking.specs.States.{following};

use crate::signs;
use format::kinds::{ActionKind, EdgeKind, StateKind};
use format::{action, edge, state};

// The rule and the links of a state whose type has so many words behind it; `other` is the link that the type does not have.
fn linked(row: &[i32; state::WIDTH], after: usize, link: usize, other: usize) -> bool
    requires { (link < 8) × (other < 8) }
    ensures { result ≡ (absent (cell row.now other) && following after (cell row.now st_rule) (cell row.now link)) }
{
    let free = signs::absent(row[other]);
    match after {
        0 => free & (signs::absent(row[state::RULE]) & signs::absent(row[link])),
        1 => free & (signs::or_absent(row[state::RULE]) & signs::absent(row[link])),
        _ => free & (signs::or_absent(row[state::RULE]) & signs::natural(row[link])),
    }
}

// Only a state of type 12 has a loop back.
fn state_read(row: &[i32; state::WIDTH]) -> bool
    ensures { result ≡ state_read (state_back row.now) }
{
    let kind = tables::size_at(row, state::KIND);
    let after = format::words_after(kind);
    if kind < StateKind::LoopEnd as usize {
        return linked(row, after, state::END, state::BACK);
    }
    if kind == StateKind::LoopEnd as usize {
        return linked(row, after, state::BACK, state::END);
    }
    false
}

pub fn state_fine(row: &[i32; state::WIDTH]) -> bool
    ensures { result ≡ state_fine row.now }
{
    signs::natural(row[state::KIND]) & state_read(row) & signs::named(row[state::FLAGS], 8)
}

// n states are listed.
pub fn edge_fine(row: &[i32; edge::WIDTH], n: usize) -> bool
    ensures { result ≡ edge_fine n row.now }
{
    signs::natural(row[edge::KIND])
        & signs::named(row[edge::SOURCE], n)
        & signs::natural(row[edge::TARGET])
}

// q and r are not used; `p` says whether p is fine.
fn alone(row: &[i32; edge::WIDTH], p: bool) -> bool
    ensures { result ≡ (p && nought (cell row.now ed_q) && nought (cell row.now ed_r)) }
{
    p & signs::nought(row[edge::Q]) & signs::nought(row[edge::R])
}

// p and q are indices.
fn indices(row: &[i32; edge::WIDTH]) -> bool
    ensures { result ≡ (natural (cell row.now ed_p) && natural (cell row.now ed_q)) }
{
    signs::natural(row[edge::P]) & signs::natural(row[edge::Q])
}

// p, q and r by the type, from epsilon to precedence; k sets are listed.
pub fn arguments_fine(row: &[i32; edge::WIDTH], k: usize) -> bool
    ensures { result ≡ args_read k (edge_back row.now) }
{
    match EdgeKind::try_from(row[edge::KIND]) {
        Ok(EdgeKind::Epsilon) => alone(row, signs::nought(row[edge::P])),
        Ok(EdgeKind::Range) => signs::nought(row[edge::R]),
        Ok(EdgeKind::Rule) => indices(row),
        Ok(EdgeKind::Predicate) => indices(row) & signs::truth(row[edge::R]),
        Ok(EdgeKind::Atom) => alone(row, true),
        Ok(EdgeKind::Action) => {
            signs::natural(row[edge::P])
                & signs::or_absent(row[edge::Q])
                & signs::truth(row[edge::R])
        }
        Ok(EdgeKind::Set) => alone(row, signs::named(row[edge::P], k)),
        Ok(EdgeKind::NotSet) => alone(row, signs::named(row[edge::P], k)),
        Ok(EdgeKind::Wildcard) => alone(row, signs::nought(row[edge::P])),
        Ok(EdgeKind::Precedence) => alone(row, true),
        Err(_) => false,
    }
}

// Neither d1 nor d2 is used.
fn bare(row: &[i32; action::WIDTH]) -> bool
    ensures { result ≡ (nought (cell row.now ac_d1) && nought (cell row.now ac_d2)) }
{
    signs::nought(row[action::D1]) & signs::nought(row[action::D2])
}

// d1 and d2 by the type, from channel to type.
pub fn action_fine(row: &[i32; action::WIDTH]) -> bool
    ensures { result ≡ action_fine row.now }
{
    match ActionKind::try_from(row[action::KIND]) {
        Ok(ActionKind::Channel) => signs::nought(row[action::D2]),
        Ok(ActionKind::Custom) => true,
        Ok(ActionKind::Mode) => signs::nought(row[action::D2]),
        Ok(ActionKind::More) => bare(row),
        Ok(ActionKind::PopMode) => bare(row),
        Ok(ActionKind::PushMode) => signs::nought(row[action::D2]),
        Ok(ActionKind::Skip) => bare(row),
        Ok(ActionKind::Type) => signs::nought(row[action::D2]),
        Err(_) => false,
    }
}
