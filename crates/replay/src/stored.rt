// The stored cases, one after another. A case is, in words: the lengths of the nine slices; the number of words, and the words; the
// answer's number. For 0: the eleven counts, and for each of the nine tables the number of its records' words, and these. Else: field,
// place, value, and the number of the record. At last the number of the words that are written of the tables, and these; 0 where the list
// is refused. A block of the file holds whole cases, and words of -1 behind them. What would stand behind a block's end is 0 or nothing.

ghost use Rattle.std.specs.Prelude.{◌≡◌, ◌-◌, ◌≤◌, ◌<◌, ◌^◌, length, take};
ghost use Rattle.std.specs.Iterator.{at_most};
ghost use Rattle.replay.specs.Compare.{word_at};

use format::{Counts, Decoded, Refusal};

#[derive(Clone, Copy)]
pub struct Case<'a> {
    pub lengths: [usize; 9],
    // How many words are said to follow, and those that do.
    pub word_count: usize,
    pub words: &'a [i32],
    pub answer: Decoded,
    pub tables: [&'a [i32]; 9],
    pub written: &'a [i32],
}

// What is left of a block, read from its start on.
#[derive(Clone, Copy)]
struct Reader<'a> {
    rest: &'a [i32],
}

impl<'a> Reader<'a> {
    // The next n words; all where there are fewer.
    fn words(&mut self, n: usize) -> &'a [i32]
        ensures taken { result.now ≡ take n self.old.rest.now }
        ensures left { length self.new.rest.now ≤ length self.old.rest.now - n }
    {
        let (words, rest) = self.rest.split_at(n.min(self.rest.len()));
        self.rest = rest;
        words
    }

    // The next word; 0 where there is none.
    fn word(&mut self) -> i32
        ensures value { result ≡ word_at self.old.rest.now 0 }
        ensures left { length self.new.rest.now ≤ length self.old.rest.now - 1 }
    {
        self.words(1).first().copied().unwrap_or(0)
    }

    // The next word, as a count; none where it is negative.
    fn count(&mut self) -> usize
        ensures bounded { result < 2 ^ 31 }
        ensures left { length self.new.rest.now ≤ length self.old.rest.now - 1 }
    {
        usize::try_from(self.word()).unwrap_or(0)
    }

    // The next word, as a number; 0 where it is negative.
    fn number(&mut self) -> u32
        ensures { length self.new.rest.now ≤ length self.old.rest.now - 1 }
    {
        u32::try_from(self.word()).unwrap_or(0)
    }

    // The words behind their number.
    fn counted(&mut self) -> &'a [i32]
        ensures { length self.new.rest.now ≤ length self.old.rest.now }
    {
        let n = self.count();
        self.words(n)
    }

    fn lengths(&mut self) -> [usize; 9]
        ensures { length self.new.rest.now ≤ length self.old.rest.now - 9 }
    {
        [
            self.count(),
            self.count(),
            self.count(),
            self.count(),
            self.count(),
            self.count(),
            self.count(),
            self.count(),
            self.count(),
        ]
    }

    fn counts(&mut self) -> Counts
        ensures { length self.new.rest.now ≤ length self.old.rest.now }
    {
        Counts {
            words: self.count(),
            token: self.word(),
            states: self.count(),
            edges: self.count(),
            derived: self.count(),
            ranges: self.count(),
            sets: self.count(),
            rules: self.count(),
            modes: self.count(),
            decisions: self.count(),
            actions: self.count(),
        }
    }

    fn refusal(&mut self, number: i32) -> Refusal
        ensures { length self.new.rest.now ≤ length self.old.rest.now }
    {
        Refusal {
            number: u32::try_from(number).unwrap_or(0),
            field: self.number(),
            place: self.count(),
            value: i64::from(self.word()),
            record: self.count(),
        }
    }

    fn answer(&mut self) -> Decoded
        ensures { length self.new.rest.now ≤ length self.old.rest.now }
    {
        match self.word() {
            0 => Ok(self.counts()),
            number => Err(self.refusal(number)),
        }
    }

    // Nothing is stored of a list that is refused: its tables hold zeros alone.
    fn tables(&mut self, answer: Decoded) -> [&'a [i32]; 9]
        ensures { length self.new.rest.now ≤ length self.old.rest.now }
    {
        if answer.is_err() {
            return [&[]; 9];
        }
        [
            self.counted(),
            self.counted(),
            self.counted(),
            self.counted(),
            self.counted(),
            self.counted(),
            self.counted(),
            self.counted(),
            self.counted(),
        ]
    }

    fn case(&mut self) -> Case<'a>
        ensures { length self.new.rest.now ≤ length self.old.rest.now - 9 }
    {
        let lengths = self.lengths();
        let word_count = self.count();
        let words = self.words(word_count);
        let answer = self.answer();
        let tables = self.tables(answer);
        let written = self.counted();
        Case {
            lengths,
            word_count,
            words,
            answer,
            tables,
            written,
        }
    }
}

// The cases of a block.
#[derive(Clone, Copy)]
pub struct Cases<'a> {
    rest: &'a [i32],
}

impl<'a> Cases<'a> {
    pub fn of(block: &'a [i32]) -> Cases<'a> {
        Cases { rest: block }
    }
}

impl<'a> Iterator for Cases<'a> {
    type Item = Case<'a>;

    ghost remaining = { λ s. at_most (length s.rest.now) };

    fn next(&mut self) -> Option<Case<'a>> {
        match self.rest.first() {
            None | Some(-1) => None,
            Some(_) => {
                let mut reader = Reader { rest: self.rest };
                let case = reader.case();
                self.rest = reader.rest;
                Some(case)
            }
        }
    }
}
