// Document 02, R-1, refusal 15: the tests of records by themselves and of sets, each of them one pass over a lent table.
// What they come to is defined in the specs of `rewriting`: Formed and Passes.

#![tactic(auto)]

pub mod kept;
pub mod passes;
mod records;
pub mod signs;
