// Names for the numbers of documents 01 and 02 that more than one program says: fields and records. A refusal's have theirs in crate
// `format` (`Reason`).

use std::fmt;
use std::fmt::Display;

// A field ("Reading order and fields"). It stays a number, as `Refusal` holds it, which C reads: 35 variants would be no plainer.
#[derive(Clone, Copy)]
pub struct Field(pub u32);

// The header's, the states', the rules' and the modes'.
fn early_field(field: u32) -> &'static str {
    match field {
        1 => "version",
        2 => "grammar type",
        3 => "max token type",
        4 => "state count",
        5 => "state type",
        6 => "rule index",
        7 => "loop back state",
        8 => "block end state",
        9 => "non-greedy state count",
        10 => "non-greedy state",
        11 => "precedence state count",
        12 => "precedence state",
        13 => "rule count",
        14 => "rule start state",
        15 => "rule token type",
        16 => "mode count",
        17 => "mode start state",
        _ => "unknown",
    }
}

// A field from the sets on.
fn late_field(field: u32) -> &'static str {
    match field {
        18 => "set count",
        19 => "interval count",
        20 => "EOF flag",
        21 => "interval start",
        22 => "interval stop",
        23 => "edge count",
        24 => "edge source",
        25 => "edge target",
        26 => "edge type",
        27 => "edge argument a",
        28 => "edge argument b",
        29 => "edge argument c",
        30 => "decision count",
        31 => "decision state",
        32 => "action count",
        33 => "action type",
        34 => "action data 1",
        35 => "action data 2",
        _ => "unknown",
    }
}

impl Display for Field {
    fn fmt<W: fmt::Write>(&self, f: &mut fmt::Formatter<W>) -> fmt::Result {
        f.write_str(match self.0 {
            0..18 => early_field(self.0),
            _ => late_field(self.0),
        })
    }
}

// Which record a word of a field belongs to (document 02, R-2). The header, the other counts and the derived edges belong to none, and of
// them nothing is said.
#[derive(Clone, Copy)]
pub struct Owner {
    pub field: u32,
    pub record: usize,
}

impl Display for Owner {
    fn fmt<W: fmt::Write>(&self, f: &mut fmt::Formatter<W>) -> fmt::Result {
        let record = self.record;
        match self.field {
            5..=8 => write!(f, "; state {record}"),
            10 => write!(f, "; place {record} of the non-greedy list"),
            12 => write!(f, "; place {record} of the precedence list"),
            14..=15 => write!(f, "; rule {record}"),
            17 => write!(f, "; place {record} of the mode list"),
            19..=22 => write!(f, "; set {record}"),
            24..=29 => write!(f, "; edge {record}"),
            31 => write!(f, "; place {record} of the decision list"),
            33..=35 => write!(f, "; action {record}"),
            _ => Ok(()),
        }
    }
}
