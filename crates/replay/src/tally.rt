// What is counted over all cases, and the summary of it.

use crate::stored::Case;
use std::fmt;
use std::fmt::Display;

#[derive(Clone, Copy)]
pub struct Tally {
    // The lists by their stored answer, 0 for an acceptance.
    answers: [usize; 13],
    differ: usize,
    // The words decoded, and the table words compared.
    words: usize,
    compared: usize,
    pub lists: usize,
    // The lists whose tables were written, and the words of these.
    writes: usize,
    written: usize,
}

// So many more, as long as the numbers are small.
fn add(total: &mut usize, n: usize) {
    if *total < 1000000000 && n < 1000000000 {
        *total += n;
    }
}

// The words of all nine tables; a sum that is large grows no further.
fn sum(lengths: &[usize; 9]) -> usize {
    lengths.iter().fold(
        0,
        |sum, length| if sum < 1000000 {
            sum.saturating_add(*length)
        } else {
            sum
        },
    )
}

impl Tally {
    pub fn new() -> Tally {
        Tally {
            answers: [0; 13],
            differ: 0,
            words: 0,
            compared: 0,
            lists: 0,
            writes: 0,
            written: 0,
        }
    }

    // A list with this stored answer. One of 13 to 18, which no list has, has always been counted with what is named here.
    fn count_answer(&mut self, answer: u32) {
        match answer {
            0..13 => add(&mut self.answers[answer as usize], 1),
            13 => add(&mut self.differ, 1),
            14 => add(&mut self.words, 1),
            15 => add(&mut self.compared, 1),
            16 => add(&mut self.lists, 1),
            17 => add(&mut self.writes, 1),
            18 => add(&mut self.written, 1),
            _ => {}
        }
    }

    // What a case adds.
    pub fn count(&mut self, case: &Case, same: bool) {
        add(&mut self.differ, usize::from(!same));
        add(&mut self.lists, 1);
        self.count_answer(match case.answer {
            Ok(_) => 0,
            Err(refusal) => refusal.number,
        });
        add(&mut self.words, case.word_count);
        add(&mut self.compared, sum(&case.lengths));
        add(&mut self.writes, usize::from(!case.written.is_empty()));
        add(&mut self.written, case.written.len());
    }
}

impl Display for Tally {
    fn fmt<W: fmt::Write>(&self, f: &mut fmt::Formatter<W>) -> fmt::Result {
        for (number, lists) in self.answers.iter().enumerate() {
            match (number, *lists) {
                (_, 0) => {}
                (0, lists) => writeln!(f, "accepted {lists}")?,
                (_, lists) => writeln!(f, "refused {number}: {lists}")?,
            }
        }
        let Tally {
            answers: _,
            differ,
            words,
            compared,
            lists,
            writes,
            written,
        } = self;
        writeln!(f, "words decoded {words}, table words compared {compared}")?;
        writeln!(f, "tables written {writes}, words {written}")?;
        writeln!(f, "lists {lists}, that differ {differ}")
    }
}
