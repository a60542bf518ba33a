// The types of states, edges and actions by name (document 01, "Reading order and fields": "State types 0 to 12", "Edge types", "Action
// types"). The lent tables hold their numbers.

ghost use Rattle.std.specs.Prelude.{◌≡◌};
ghost use Rattle.format.specs.Kinds.{state_number, edge_number, action_number, Names};

// A word that is no type's number.
#[derive(Clone, Copy, Debug, PartialEq, Eq)]
pub struct UnknownKind(pub i32);

#[derive(Clone, Copy, Debug, PartialEq, Eq)]
pub enum StateKind {
    Invalid,
    Basic,
    RuleStart,
    BlockStart,
    PlusBlockStart,
    StarBlockStart,
    TokenStart,
    RuleStop,
    BlockEnd,
    StarLoopBack,
    StarLoopEntry,
    PlusLoopBack,
    LoopEnd,
}

#[derive(Clone, Copy, Debug, PartialEq, Eq)]
pub enum EdgeKind {
    Epsilon = 1,
    Range = 2,
    Rule = 3,
    Predicate = 4,
    Atom = 5,
    Action = 6,
    Set = 7,
    NotSet = 8,
    Wildcard = 9,
    Precedence = 10,
}

#[derive(Clone, Copy, Debug, PartialEq, Eq)]
pub enum ActionKind {
    Channel,
    Custom,
    Mode,
    More,
    PopMode,
    PushMode,
    Skip,
    Type,
}

impl TryFrom<i32> for StateKind {
    type Error = UnknownKind;

    ghost try_from_gives = { Names state_number 0 12 };

    fn try_from(word: i32) -> Result<Self, UnknownKind> {
        match word {
            0 => Ok(StateKind::Invalid),
            1 => Ok(StateKind::Basic),
            2 => Ok(StateKind::RuleStart),
            3 => Ok(StateKind::BlockStart),
            4 => Ok(StateKind::PlusBlockStart),
            5 => Ok(StateKind::StarBlockStart),
            6 => Ok(StateKind::TokenStart),
            7 => Ok(StateKind::RuleStop),
            8 => Ok(StateKind::BlockEnd),
            9 => Ok(StateKind::StarLoopBack),
            10 => Ok(StateKind::StarLoopEntry),
            11 => Ok(StateKind::PlusLoopBack),
            12 => Ok(StateKind::LoopEnd),
            _ => Err(UnknownKind(word)),
        }
    }
}

impl TryFrom<i32> for EdgeKind {
    type Error = UnknownKind;

    ghost try_from_gives = { Names edge_number 1 10 };

    fn try_from(word: i32) -> Result<Self, UnknownKind> {
        match word {
            1 => Ok(EdgeKind::Epsilon),
            2 => Ok(EdgeKind::Range),
            3 => Ok(EdgeKind::Rule),
            4 => Ok(EdgeKind::Predicate),
            5 => Ok(EdgeKind::Atom),
            6 => Ok(EdgeKind::Action),
            7 => Ok(EdgeKind::Set),
            8 => Ok(EdgeKind::NotSet),
            9 => Ok(EdgeKind::Wildcard),
            10 => Ok(EdgeKind::Precedence),
            _ => Err(UnknownKind(word)),
        }
    }
}

impl TryFrom<i32> for ActionKind {
    type Error = UnknownKind;

    ghost try_from_gives = { Names action_number 0 7 };

    fn try_from(word: i32) -> Result<Self, UnknownKind> {
        match word {
            0 => Ok(ActionKind::Channel),
            1 => Ok(ActionKind::Custom),
            2 => Ok(ActionKind::Mode),
            3 => Ok(ActionKind::More),
            4 => Ok(ActionKind::PopMode),
            5 => Ok(ActionKind::PushMode),
            6 => Ok(ActionKind::Skip),
            7 => Ok(ActionKind::Type),
            _ => Err(UnknownKind(word)),
        }
    }
}
