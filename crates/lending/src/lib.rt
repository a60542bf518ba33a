// A dialect's nine tables as one value, which a program owns, on the heap: lent to the library, that it decodes words into them, and turns
// them back into words.

#![tactic(auto)]

ghost use Rattle.std.specs.Prelude.{◌≡◌, ◌*◌, ◌≤◌, [], length, IfOk};
ghost use Rattle.format.specs.Tables.{nine, width};
ghost use Rattle.format.specs.Writing.{Writes, writing};
ghost use Rattle.inplace.specs.Whole.{blank};
ghost use Rattle.serialized.specs.Answered.{Decodes};
ghost use Rattle.lending.specs.Owned.{tables_of, lists_of, records_of};

use format::{Counts, Decoded, Written, action, edge, name, range, rule, set, state};
use std::alloc::{AllocError, Global};
use tables::SCRATCH;

// The nine tables of document 01, "Lent tables".
#[derive(Drop)]
pub struct Tables {
    pub states: Vec<i32>,
    pub edges: Vec<i32>,
    pub ranges: Vec<i32>,
    pub sets: Vec<i32>,
    pub rules: Vec<i32>,
    pub modes: Vec<i32>,
    pub decisions: Vec<i32>,
    pub actions: Vec<i32>,
    pub scratch: Vec<i32>,
}

impl Tables {
    // Tables with room for as many records each, all zero.
    pub fn for_records(alloc: Global, records: usize) -> Result<Tables, AllocError>
        requires { records ≤ 65536 }
        ensures { IfOk result (λ t. tables_of t ≡ blank (λ u. records * width u)) }
    {
        Ok(Tables {
            states: vec![in alloc; 0; records * state::WIDTH]?,
            edges: vec![in alloc; 0; records * edge::WIDTH]?,
            ranges: vec![in alloc; 0; records * range::WIDTH]?,
            sets: vec![in alloc; 0; records * set::WIDTH]?,
            rules: vec![in alloc; 0; records * rule::WIDTH]?,
            modes: vec![in alloc; 0; records * name::WIDTH]?,
            decisions: vec![in alloc; 0; records * name::WIDTH]?,
            actions: vec![in alloc; 0; records * action::WIDTH]?,
            scratch: vec![in alloc; 0; records * SCRATCH]?,
        })
    }

    // The words, decoded into these tables.
    pub fn decode(&mut self, words: &[i32]) -> Decoded
        ensures { Decodes (tables_of self.old) words.now 0 result (tables_of self.new) }
    {
        gatehazel::decode(
            words,
            &mut self.states,
            &mut self.edges,
            &mut self.ranges,
            &mut self.sets,
            &mut self.rules,
            &mut self.modes,
            &mut self.decisions,
            &mut self.actions,
            &mut self.scratch,
        )
    }

    // The first records of these tables, as many as the counts say, as words.
    pub fn write(&self, counts: Counts, out: &mut [i32]) -> Written
        ensures { Writes (lists_of self.now) (records_of counts) counts.token (length out.old) (writing result out.new) }
    {
        gatehazel::write(
            &self.states,
            counts.states,
            &self.edges,
            counts.edges,
            &self.ranges,
            counts.ranges,
            &self.sets,
            counts.sets,
            &self.rules,
            counts.rules,
            &self.modes,
            counts.modes,
            &self.decisions,
            counts.decisions,
            &self.actions,
            counts.actions,
            counts.token,
            out,
        )
    }
}

#[cfg(test)]
mod tests {
    use super::*;
    use std::test::Fail;

    // No clause can say that there is memory.
    #[test]
    fn three_records(rt: HostRuntime) -> Result<(), Fail> {
        let tables = Tables::for_records(rt.alloc(), 3)?;
        assert_eq!(rt; tables.states.len(), 24);
        assert_eq!(rt; tables.scratch.len(), 12);
        Ok(())
    }
}
