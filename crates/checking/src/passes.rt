// Document 02, R-1, refusal 15: one pass over a lent table, whether all of its records are fine. What follows a table's last record is not
// looked at.

ghost use Rattle.std.specs.Prelude.{◌≡◌};
ghost use Rattle.rewriting.specs.Passes.{states_fine, edges_fine, arguments_fine, starts_fine, names_fine, actions_fine};

use crate::{records, signs};
use format::{name, rule};
use tables::rows::Rows;

pub fn states_fine(states: &Rows<8>) -> bool
    ensures { result ≡ states_fine states.now.count states.now.words.now }
{
    states.counted().iter().all(records::state_fine)
}

// n states are listed.
pub fn edges_fine(edges: &Rows<8>, n: usize) -> bool
    ensures { result ≡ edges_fine n edges.now.count edges.now.words.now }
{
    edges.counted().iter().all(|row| records::edge_fine(row, n))
}

// p, q and r of each edge; k sets are listed.
pub fn all_arguments_fine(edges: &Rows<8>, k: usize) -> bool
    ensures { result ≡ arguments_fine k edges.now.count edges.now.words.now }
{
    edges
        .counted()
        .iter()
        .all(|row| records::arguments_fine(row, k))
}

// The start of each rule.
pub fn starts_fine(rules: &Rows<3>) -> bool
    ensures { result ≡ starts_fine rules.now.count rules.now.words.now }
{
    rules
        .counted()
        .iter()
        .all(|row| signs::natural(row[rule::START]))
}

// Modes and decisions.
pub fn names_fine(names: &Rows<1>) -> bool
    ensures { result ≡ names_fine names.now.count names.now.words.now }
{
    names
        .counted()
        .iter()
        .all(|row| signs::natural(row[name::STATE]))
}

pub fn actions_fine(actions: &Rows<3>) -> bool
    ensures { result ≡ actions_fine actions.now.count actions.now.words.now }
{
    actions.counted().iter().all(records::action_fine)
}
