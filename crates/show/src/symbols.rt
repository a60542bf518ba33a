// Symbols and ranges of symbols, as a person reads them.

use crate::dialect::Range;
use format::range;
use std::fmt;
use std::fmt::Display;

// A symbol: 'a', EOF for -1, or its number.
#[derive(Clone, Copy)]
pub struct Symbol(pub i32);

impl Display for Symbol {
    fn fmt<W: fmt::Write>(&self, f: &mut fmt::Formatter<W>) -> fmt::Result {
        let symbol = self.0;
        match symbol {
            -1 => write!(f, "EOF"),
            // The quotes and the backslash, which a reader of the text or of the graph would have to see escaped.
            34 | 39 | 92 => write!(f, "{symbol}"),
            33..=126 => {
                let shown = symbol as u8 as char;
                write!(f, "'{shown}'")
            }
            _ => write!(f, "{symbol}"),
        }
    }
}

// A range by its symbols; one alone where it has only one.
#[derive(Clone, Copy)]
pub struct Symbols(pub Range);

impl Display for Symbols {
    fn fmt<W: fmt::Write>(&self, f: &mut fmt::Formatter<W>) -> fmt::Result {
        let start = Symbol(self.0[range::START]);
        let stop = Symbol(self.0[range::STOP]);
        if start.0 == stop.0 {
            write!(f, "{start}")
        } else {
            write!(f, "{start}..{stop}")
        }
    }
}

// A range by its numbers.
#[derive(Clone, Copy)]
pub struct Numbers(pub Range);

impl Display for Numbers {
    fn fmt<W: fmt::Write>(&self, f: &mut fmt::Formatter<W>) -> fmt::Result {
        let start = self.0[range::START];
        let stop = self.0[range::STOP];
        write!(f, "{start}..{stop}")
    }
}

// Ranges, each as `shown` has it, with a comma between two; behind the first `most` only how many there are.
fn list<W: fmt::Write, D: Display + Drop, F: Fn(Range) -> D>(
    f: &mut fmt::Formatter<W>,
    ranges: &[Range],
    most: usize,
    shown: F,
) -> fmt::Result
    requires { F.IsAlwaysCallable shown }
{
    for (i, range) in ranges.iter().enumerate() {
        if i >= most {
            let count = ranges.len();
            return write!(f, ", .. {count} ranges");
        }
        if i > 0 {
            write!(f, ", ")?;
        }
        let one = shown(*range);
        write!(f, "{one}")?;
    }
    Ok(())
}

// The first of a set's ranges, in numbers.
#[derive(Clone, Copy)]
pub struct Few<'a>(pub &'a [Range]);

impl Display for Few<'_> {
    fn fmt<W: fmt::Write>(&self, f: &mut fmt::Formatter<W>) -> fmt::Result {
        write!(f, "{{")?;
        list(f, self.0, 4, Numbers)?;
        write!(f, "}}")
    }
}

// A set's ranges, in numbers and as symbols.
#[derive(Clone, Copy)]
pub struct All<'a>(pub &'a [Range]);

impl Display for All<'_> {
    fn fmt<W: fmt::Write>(&self, f: &mut fmt::Formatter<W>) -> fmt::Result {
        write!(f, "{{")?;
        list(f, self.0, usize::MAX, Numbers)?;
        write!(f, "}}")?;
        if !self.0.is_empty() {
            write!(f, " ")?;
            list(f, self.0, usize::MAX, Symbols)?;
        }
        Ok(())
    }
}
