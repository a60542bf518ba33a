// Rewrites a dialect: `rewrite [--token RULE TYPE].. FILE` reads a file of little-endian 32-bit words, decodes it, sets the token types
// that are asked for, and puts the words of the tables to standard output (document 02, R-1). What can't be rewritten is said in one
// line on standard error, and then nothing is put out.

#![tactic(auto)]

mod arguments;
mod dialect;
mod misuse;
mod numbers;
mod output;

use arguments::{Request, Setting};
use std::io;

const USAGE: &str = "rewrite [--token RULE TYPE].. FILE
Writes the dialect's words to standard output in one fixed form, with the token type of rule RULE set to TYPE.
RULE counts from 0; TYPE is from -2147483648 to 2147483647; of two types for one rule the last counts.
A dialect is a file of little-endian 32-bit words, at most 131072 bytes.
What can't be rewritten is said in one line on standard error, and then standard output stays empty.";

fn rewrite(rt: &HostRuntime, file: &[u8], settings: Vec<Setting>) -> io::Result<()> {
    match dialect::rewrite(rt, file, settings) {
        Ok(()) => Ok(()),
        Err(fault) => printing::line(&rt.stderr(), fault.about(file), fault),
    }
}

fn main(rt: HostRuntime) -> io::Result<()> {
    match arguments::asked(&rt) {
        Ok(Request::Rewrite { file, settings }) => rewrite(&rt, &file, settings),
        Ok(Request::Help) => rt.println(USAGE),
        Err(misuse) => misuse.print(&rt.stderr()),
    }
}
