// A dialect's network as a Graphviz graph.

use crate::dialect::{Dialect, Edge, State};
use crate::edge_text::{DERIVED, Label, Remarks, TAIL_CALL};
use format::kinds::StateKind;
use format::{edge, state};
use std::io;

// A rule's stop has two rings.
fn shape(state: &State) -> &'static str {
    match StateKind::try_from(state[state::KIND]) {
        Ok(StateKind::RuleStop) => ", shape=doublecircle",
        _ => "",
    }
}

// A derived edge is dashed, a tail call bold.
fn style(edge: &Edge) -> &'static str {
    match edge[edge::MARK] {
        DERIVED => ", style=dashed",
        TAIL_CALL => ", style=bold",
        _ => "",
    }
}

fn arrows(rt: &impl Print, dialect: &Dialect, state: &State) -> io::Result<()> {
    for edge in dialect.edges_of(state) {
        let source = edge[edge::SOURCE];
        let target = edge[edge::TARGET];
        let label = Label {
            dialect: *dialect,
            edge,
        };
        let remarks = Remarks(edge);
        let style = style(edge);
        println!(rt; "  s{source} -> s{target} [label=\"{label}{remarks}\"{style}];")?;
    }
    Ok(())
}

pub fn print(rt: &impl Print, dialect: &Dialect) -> io::Result<()> {
    println!(rt; "digraph dialect {{\n  rankdir=LR;\n  node [shape=circle];")?;
    for (number, state) in dialect.states.iter().enumerate() {
        let shape = shape(state);
        println!(rt; "  s{number} [label=\"{number}\"{shape}];")?;
        arrows(rt, dialect, state)?;
    }
    println!(rt; "}}")
}
