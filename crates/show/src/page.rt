// A dialect in lines: its counts, and a line for each of its records.

use crate::dialect::{Action, Dialect, Name, Rule, State};
use crate::edge_text::{Label, Remarks};
use crate::names::{ActionType, StateType};
use crate::symbols::All;
use format::kinds::ActionKind;
use format::{Counts, action, edge, name, rule, state};
use std::fmt::Display;
use std::{fmt, io};

// A state's flags.
const NON_GREEDY: i32 = 1;

const LEFT_RECURSIVE: i32 = 2;

const PRECEDENCE_DECISION: i32 = 4;

// A name and a number, unless that is none.
#[derive(Clone, Copy)]
struct Known(&'static str, i32);

impl Display for Known {
    fn fmt<W: fmt::Write>(&self, f: &mut fmt::Formatter<W>) -> fmt::Result {
        let Known(name, number) = *self;
        match number {
            -1 => Ok(()),
            _ => write!(f, "{name}{number}"),
        }
    }
}

#[derive(Clone, Copy)]
struct RuleLine(Rule);

impl Display for RuleLine {
    fn fmt<W: fmt::Write>(&self, f: &mut fmt::Formatter<W>) -> fmt::Result {
        let start = self.0[rule::START];
        let stop = Known(", stop ", self.0[rule::STOP]);
        let token = self.0[rule::TOKEN];
        write!(f, "start {start}{stop}, token type {token}")
    }
}

// A mode or a decision.
#[derive(Clone, Copy)]
struct NameLine(Name);

impl Display for NameLine {
    fn fmt<W: fmt::Write>(&self, f: &mut fmt::Formatter<W>) -> fmt::Result {
        let state = self.0[name::STATE];
        write!(f, "state {state}")
    }
}

// What the type does not keep is not shown.
#[derive(Clone, Copy)]
struct ActionLine(Action);

impl Display for ActionLine {
    fn fmt<W: fmt::Write>(&self, f: &mut fmt::Formatter<W>) -> fmt::Result {
        let kind = self.0[action::KIND];
        let name = ActionType(kind);
        let first = self.0[action::D1];
        let second = self.0[action::D2];
        match ActionKind::try_from(kind) {
            Ok(ActionKind::More | ActionKind::PopMode | ActionKind::Skip) => write!(f, "{name}"),
            Ok(ActionKind::Custom) => write!(f, "{name} rule {first} action {second}"),
            _ => write!(f, "{name} {first}"),
        }
    }
}

// A state's type, rule, links and flags.
#[derive(Clone, Copy)]
struct StateLine<'a>(&'a State);

impl Display for StateLine<'_> {
    fn fmt<W: fmt::Write>(&self, f: &mut fmt::Formatter<W>) -> fmt::Result {
        let kind = StateType(self.0[state::KIND]);
        let rule = Known(", rule ", self.0[state::RULE]);
        let end = Known(", block end ", self.0[state::END]);
        let back = Known(", loop back ", self.0[state::BACK]);
        write!(f, "{kind}{rule}{end}{back}")?;
        let flags = self.0[state::FLAGS];
        if flags & NON_GREEDY != 0 {
            write!(f, ", non-greedy")?;
        }
        if flags & LEFT_RECURSIVE != 0 {
            write!(f, ", left-recursive")?;
        }
        if flags & PRECEDENCE_DECISION != 0 {
            write!(f, ", precedence decision")?;
        }
        Ok(())
    }
}

// Behind the file's name: the counts.
fn counts(rt: &impl Print, file: &[u8], words: usize, counts: Counts) -> io::Result<()> {
    let Counts {
        words: read,
        token,
        states,
        edges,
        derived,
        ranges,
        sets,
        rules,
        modes,
        decisions,
        actions,
    } = counts;
    printing::line(
        rt,
        file,
        format_args!("accepted, {read} of {words} words read"),
    )?;
    println!(rt;
        "max token type {token}\nstates {states}\nedges {edges}, derived {derived}\nranges {ranges}\nsets {sets}"
    )?;
    println!(rt; "rules {rules}\nmodes {modes}\ndecisions {decisions}\nactions {actions}")
}

// A set's number is asked for as a word.
fn sets(rt: &impl Print, dialect: &Dialect) -> io::Result<()> {
    for number in 0..i32::try_from(dialect.counts.sets).unwrap_or(i32::MAX) {
        println!(rt; "set {number} {}", All(dialect.set(number)))?;
    }
    Ok(())
}

// `    'a'..'z' -> 12`
fn edges(rt: &impl Print, dialect: &Dialect, state: &State) -> io::Result<()> {
    for edge in dialect.edges_of(state) {
        let label = Label {
            dialect: *dialect,
            edge,
        };
        let target = edge[edge::TARGET];
        let remarks = Remarks(edge);
        println!(rt; "    {label} -> {target}{remarks}")?;
    }
    Ok(())
}

fn states(rt: &impl Print, dialect: &Dialect) -> io::Result<()> {
    for (number, state) in dialect.states.iter().enumerate() {
        println!(rt; "state {number}: {}", StateLine(state))?;
        edges(rt, dialect, state)?;
    }
    Ok(())
}

// A line for each record of a table: what it is called, its number, and the record as `shown` has it.
fn lines<R: Copy, D: Display + Drop, F: Fn(R) -> D>(
    rt: &impl Print,
    name: &str,
    records: &[R],
    shown: F,
) -> io::Result<()>
    requires { F.IsAlwaysCallable shown }
{
    for (number, record) in records.iter().enumerate() {
        let record = shown(*record);
        println!(rt; "{name} {number}: {record}")?;
    }
    Ok(())
}

// Counts, rules, modes, decisions, actions, sets, and the states with their edges.
pub fn print(rt: &impl Print, file: &[u8], words: usize, dialect: &Dialect) -> io::Result<()> {
    counts(rt, file, words, dialect.counts)?;
    lines(rt, "rule", dialect.rules, RuleLine)?;
    lines(rt, "mode", dialect.modes, NameLine)?;
    lines(rt, "decision", dialect.decisions, NameLine)?;
    lines(rt, "action", dialect.actions, ActionLine)?;
    sets(rt, dialect)?;
    states(rt, dialect)
}
