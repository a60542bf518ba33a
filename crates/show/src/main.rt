// Shows dialects: `show FILE..` reads each file of little-endian 32-bit words, decodes it, and prints its counts, rules, modes,
// decisions, actions, sets and states with their edges, or says why it can't. Behind `--dot` the network is printed as a
// Graphviz graph instead. What is printed is what the decoder put into the tables (document 01, "Lent tables").

#![tactic(auto)]

mod dialect;
mod edge_text;
mod files;
mod graph;
mod names;
mod page;
mod symbols;

use loading::arguments;
use std::io;
use std::rt::{Env, Files};

const USAGE: &str =
    "show FILE..        print each dialect: counts, rules, modes, decisions, actions, sets, states and their edges
show --dot FILE..  print each as a Graphviz graph
A dialect is a file of little-endian 32-bit words, at most 131072 bytes.";

fn run(rt: &(impl Print + Files + Env + AllocGlobal)) -> io::Result<()> {
    let count = arguments::count(rt);
    if count < 2 {
        return rt.println(USAGE);
    }
    let mut graph = false;
    let mut kept = None;
    for i in 1..count {
        let mut space = [0u8; 4096];
        let n = arguments::get(rt, i, &mut space);
        match &space[..n] {
            b"--dot" => graph = true,
            name => files::show(rt, &mut kept, name, graph)?,
        }
    }
    Ok(())
}

fn main(rt: HostRuntime) -> io::Result<()> {
    run(&rt)
}
