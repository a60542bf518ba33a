// Names for document 01's state types and action types; fields and refusals, which `rewrite` names too, have theirs in crate `printing`.

use format::kinds::{ActionKind, StateKind};
use std::fmt;
use std::fmt::Display;

#[derive(Clone, Copy)]
pub struct StateType(pub i32);

impl Display for StateType {
    fn fmt<W: fmt::Write>(&self, f: &mut fmt::Formatter<W>) -> fmt::Result {
        f.write_str(match StateKind::try_from(self.0) {
            Ok(StateKind::Invalid) => "invalid",
            Ok(StateKind::Basic) => "basic",
            Ok(StateKind::RuleStart) => "rule start",
            Ok(StateKind::BlockStart) => "block start",
            Ok(StateKind::PlusBlockStart) => "plus block start",
            Ok(StateKind::StarBlockStart) => "star block start",
            Ok(StateKind::TokenStart) => "token start",
            Ok(StateKind::RuleStop) => "rule stop",
            Ok(StateKind::BlockEnd) => "block end",
            Ok(StateKind::StarLoopBack) => "star loop back",
            Ok(StateKind::StarLoopEntry) => "star loop entry",
            Ok(StateKind::PlusLoopBack) => "plus loop back",
            Ok(StateKind::LoopEnd) => "loop end",
            Err(_) => "unknown",
        })
    }
}

#[derive(Clone, Copy)]
pub struct ActionType(pub i32);

impl Display for ActionType {
    fn fmt<W: fmt::Write>(&self, f: &mut fmt::Formatter<W>) -> fmt::Result {
        f.write_str(match ActionKind::try_from(self.0) {
            Ok(ActionKind::Channel) => "channel",
            Ok(ActionKind::Custom) => "custom",
            Ok(ActionKind::Mode) => "mode",
            Ok(ActionKind::More) => "more",
            Ok(ActionKind::PopMode) => "pop mode",
            Ok(ActionKind::PushMode) => "push mode",
            Ok(ActionKind::Skip) => "skip",
            Ok(ActionKind::Type) => "type",
            Err(_) => "unknown",
        })
    }
}
