// Whether the states, the edges and the rules of lent tables are linked as a decode links them: a part of refusal 15 (document 02, R-1).
// Chains, stops, return edges, marks and precedence decisions, each by what decode itself goes by.

#![tactic(auto)]

pub mod chains;
pub mod decisions;
pub mod marks;
pub mod returns;
pub mod stops;
