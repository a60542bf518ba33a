// A decoded dialect, by its records. Document 01, "Lent tables".

ghost use Rattle.std.specs.Prelude.{◌<◌};
ghost use Rattle.std.specs.Iterator.{at_most};

use format::{Counts, action, edge, name, range, rule, set, state};
use lending::Tables;

pub type State = [i32; state::WIDTH];

pub type Edge = [i32; edge::WIDTH];

pub type Range = [i32; range::WIDTH];

pub type Rule = [i32; rule::WIDTH];

pub type Name = [i32; name::WIDTH];

pub type Action = [i32; action::WIDTH];

#[derive(Clone, Copy)]
pub struct Dialect<'a> {
    pub counts: Counts,
    pub states: &'a [State],
    pub rules: &'a [Rule],
    pub modes: &'a [Name],
    pub decisions: &'a [Name],
    pub actions: &'a [Action],
    edges: &'a [Edge],
    ranges: &'a [i32],
    sets: &'a [i32],
}

// The first records of a table.
fn records<const N: usize>(table: &[i32], count: usize) -> &[[i32; N]]
    requires { 0 < N }
{
    let (records, _) = table.as_chunks();
    &records[..count.min(records.len())]
}

// The words of the first records of a table of two words a record.
fn pairs(table: &[i32], count: usize) -> &[i32] {
    let n = count.min(table.len() / 2);
    &table[..2 * n]
}

impl<'a> Dialect<'a> {
    pub fn new(tables: &'a Tables, counts: Counts) -> Dialect<'a> {
        Dialect {
            counts,
            states: records(&tables.states, counts.states),
            rules: records(&tables.rules, counts.rules),
            modes: records(&tables.modes, counts.modes),
            decisions: records(&tables.decisions, counts.decisions),
            actions: records(&tables.actions, counts.actions),
            edges: records(&tables.edges, counts.edges),
            ranges: pairs(&tables.ranges, counts.ranges),
            sets: pairs(&tables.sets, counts.sets),
        }
    }

    // A set's ranges.
    pub fn set(&self, number: i32) -> &'a [Range] {
        let set_count = self.sets.len() / set::WIDTH;
        let range_count = self.ranges.len() / range::WIDTH;
        let part = gatehazel::set_ranges(self.sets, set_count, self.ranges, range_count, number);
        let (ranges, _) = part.as_chunks();
        ranges
    }

    // A state's edges, along its chain: they are chained in word order, derived ones last.
    pub fn edges_of(&self, state: &State) -> Chain<'a> {
        Chain {
            edges: self.edges,
            next: state[state::FIRST],
            left: usize::try_from(state[state::COUNT]).unwrap_or(0),
        }
    }
}

#[derive(Drop)]
pub struct Chain<'a> {
    edges: &'a [Edge],
    next: i32,
    left: usize,
}

impl<'a> Iterator for Chain<'a> {
    type Item = &'a Edge;

    ghost remaining = { λ s. at_most s.left };

    fn next(&mut self) -> Option<&'a Edge> {
        if self.left == 0 {
            return None;
        }
        let edge = self.edges.get(usize::try_from(self.next).ok()?)?;
        self.next = edge[edge::NEXT];
        self.left -= 1;
        Some(edge)
    }
}
