// What the programs say in the same words: `names` has the words for the numbers of documents 01 and 02, `refusals` the line about a dialect
// that was refused. Each is a value that prints itself, on standard output or standard error; nothing can be said of what is printed.

#![tactic(auto)]

pub mod names;
pub mod refusals;

use std::fmt::Display;
use std::io;

// A whole line about a file. Its name need not be text, so that its bytes go out as they are, which no Display could do.
pub fn line(to: &impl Print, name: &[u8], what: impl Display + Drop) -> io::Result<()> {
    to.write_all(name)?;
    println!(to; ": {what}")
}
