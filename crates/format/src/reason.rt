// Why words, records or a question are refused, by name (document 01, "Refusal numbers"; 15 and 16 are document 02's).

ghost use Rattle.std.specs.Prelude.{◌≡◌};
ghost use Rattle.format.specs.Kinds.{refusal_number, NumberOf};

use std::fmt;

#[derive(Clone, Copy, Debug, PartialEq, Eq)]
pub enum Reason {
    Ended = 1,
    Negative = 2,
    WrongVersion = 3,
    ParserGrammar = 4,
    UnknownGrammar = 5,
    UnknownState = 6,
    UnlistedState = 7,
    UnknownEdge = 8,
    UnlistedSet = 9,
    UnlistedSource = 10,
    UnknownAction = 11,
    NoRoom = 12,
    NoSuchRecord = 13,
    Contradiction = 14,
    Unwritable = 15,
    ShortOutput = 16,
}

impl Reason {
    // The number that a refusal holds.
    pub fn number(self) -> u32
        ensures { result ≡ refusal_number self }
    {
        self as u32
    }
}

// A number that no refusal has.
#[derive(Clone, Copy, Debug, PartialEq, Eq)]
pub struct UnknownReason(pub u32);

impl TryFrom<u32> for Reason {
    type Error = UnknownReason;

    ghost try_from_gives = { NumberOf };

    fn try_from(number: u32) -> Result<Self, UnknownReason> {
        match number {
            1 => Ok(Reason::Ended),
            2 => Ok(Reason::Negative),
            3 => Ok(Reason::WrongVersion),
            4 => Ok(Reason::ParserGrammar),
            5 => Ok(Reason::UnknownGrammar),
            6 => Ok(Reason::UnknownState),
            7 => Ok(Reason::UnlistedState),
            8 => Ok(Reason::UnknownEdge),
            9 => Ok(Reason::UnlistedSet),
            10 => Ok(Reason::UnlistedSource),
            11 => Ok(Reason::UnknownAction),
            12 => Ok(Reason::NoRoom),
            13 => Ok(Reason::NoSuchRecord),
            14 => Ok(Reason::Contradiction),
            15 => Ok(Reason::Unwritable),
            16 => Ok(Reason::ShortOutput),
            _ => Err(UnknownReason(number)),
        }
    }
}

impl fmt::Display for Reason {
    fn fmt<W: fmt::Write>(&self, f: &mut fmt::Formatter<W>) -> fmt::Result {
        f.write_str(match self {
            Reason::Ended => "the words ended",
            Reason::Negative => "a word is negative that must not be",
            Reason::WrongVersion => "the version is not 4",
            Reason::ParserGrammar => "the grammar type is a parser's",
            Reason::UnknownGrammar => "the grammar type is unknown",
            Reason::UnknownState => "a state's type is unknown",
            Reason::UnlistedState => "a flagged state is not listed",
            Reason::UnknownEdge => "an edge's type is unknown",
            Reason::UnlistedSet => "a set is not listed",
            Reason::UnlistedSource => "an edge's source is not listed",
            Reason::UnknownAction => "an action's type is unknown",
            Reason::NoRoom => "there is no room for so many records",
            Reason::NoSuchRecord => "a question names no such record",
            Reason::Contradiction => "the tables contradict themselves",
            Reason::Unwritable => "no words decode to these records",
            Reason::ShortOutput => "the output is too short",
        })
    }
}
