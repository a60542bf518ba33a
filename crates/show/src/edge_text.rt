// One edge, as a person reads it: what it takes, and where it leads. Document 01, "Edge types" and "Mark".

use crate::dialect::{Dialect, Edge};
use crate::symbols::{Few, Symbol, Symbols};
use format::edge;
use format::kinds::EdgeKind;
use std::fmt;
use std::fmt::Display;

// An edge's marks; 0 is a plain one's.
pub const DERIVED: i32 = 1;

pub const TAIL_CALL: i32 = 2;

// What the edge takes.
#[derive(Clone, Copy)]
pub struct Label<'a> {
    pub dialect: Dialect<'a>,
    pub edge: &'a Edge,
}

impl Display for Label<'_> {
    fn fmt<W: fmt::Write>(&self, f: &mut fmt::Formatter<W>) -> fmt::Result {
        let p = self.edge[edge::P];
        let q = self.edge[edge::Q];
        match EdgeKind::try_from(self.edge[edge::KIND]) {
            Ok(EdgeKind::Epsilon) => write!(f, "epsilon"),
            Ok(EdgeKind::Range) => write!(f, "{}", Symbols([p, q])),
            Ok(EdgeKind::Rule) => write!(f, "rule {p}"),
            Ok(EdgeKind::Predicate) => write!(f, "predicate {q} of rule {p}"),
            Ok(EdgeKind::Atom) => write!(f, "{}", Symbol(p)),
            Ok(EdgeKind::Action) => write!(f, "action {q} of rule {p}"),
            Ok(EdgeKind::Set) => write!(f, "set {}", Few(self.dialect.set(p))),
            Ok(EdgeKind::NotSet) => write!(f, "not set {}", Few(self.dialect.set(p))),
            Ok(EdgeKind::Wildcard) => write!(f, "any"),
            Ok(EdgeKind::Precedence) => write!(f, "precedence {p}"),
            Err(_) => write!(f, "unknown"),
        }
    }
}

// A rule edge's follow state, and the marks.
#[derive(Clone, Copy)]
pub struct Remarks<'a>(pub &'a Edge);

impl Display for Remarks<'_> {
    fn fmt<W: fmt::Write>(&self, f: &mut fmt::Formatter<W>) -> fmt::Result {
        if let Ok(EdgeKind::Rule) = EdgeKind::try_from(self.0[edge::KIND]) {
            let follow = self.0[edge::Q];
            write!(f, ", then {follow}")?;
        }
        match self.0[edge::MARK] {
            DERIVED => write!(f, " derived"),
            TAIL_CALL => write!(f, " tail call"),
            _ => Ok(()),
        }
    }
}
