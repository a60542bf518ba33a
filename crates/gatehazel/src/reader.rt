// Document 01, "What must change shape": the outer entry through "a word reader that holds the lent words and its place", thin over the by-value core.

ghost use Rattle.std.specs.Prelude.{◌≡◌};
ghost use Rattle.inplace.specs.Whole.{tables};
ghost use Rattle.serialized.specs.Answered.{Decodes};

use format::Decoded;

// The lent words, and the place of the next one to be read.
#[derive(Clone, Copy)]
pub struct WordReader<'a> {
    pub words: &'a [i32],
    pub at: usize,
}

impl<'a> WordReader<'a> {
    // A reader of these words, from this place on.
    pub fn new(words: &'a [i32], at: usize) -> Self
        ensures words { result.words ≡ words.entry }
        ensures at { result.at ≡ at }
    {
        WordReader { words, at }
    }

    // The place it stands at.
    pub fn place(self) -> usize
        ensures { result ≡ self.entry.at }
    {
        self.at
    }

    // Opens the reader, and decodes its words from its place on.
    pub fn decode_from(
        self,
        states: &mut [i32],
        edges: &mut [i32],
        ranges: &mut [i32],
        sets: &mut [i32],
        rules: &mut [i32],
        modes: &mut [i32],
        decisions: &mut [i32],
        actions: &mut [i32],
        scratch: &mut [i32],
    ) -> Decoded
        ensures { Decodes (tables states.old edges.old ranges.old sets.old rules.old modes.old decisions.old actions.old scratch.old) self.entry.words.now self.entry.at result
            (tables states.new edges.new ranges.new sets.new rules.new modes.new decisions.new actions.new scratch.new) }
    {
        serialized::deserialize(
            self.words, self.at, states, edges, ranges, sets, rules, modes, decisions, actions,
            scratch,
        )
    }
}
