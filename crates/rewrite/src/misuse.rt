// A command line that is not well formed, and the line that says so.

use std::alloc::{AllocError, AllocFailed};
use std::io;

// What is wrong. An argument need not be text, so that its bytes go out as they are.
#[derive(Drop)]
pub enum Misuse {
    NoFile,
    NoName,
    SecondFile(Vec<u8>),
    UnknownOption(Vec<u8>),
    NoRule,
    NoType,
    WrongRule(Vec<u8>),
    WrongType(Vec<u8>),
    OutOfMemory,
}

impl From<AllocError> for Misuse {
    fn from(_error: AllocError) -> Misuse {
        Misuse::OutOfMemory
    }
}

impl<T: Drop> From<AllocFailed<T>> for Misuse {
    fn from(_error: AllocFailed<T>) -> Misuse {
        Misuse::OutOfMemory
    }
}

impl Misuse {
    // What is said before the argument, the argument, and what is said behind it.
    fn parts(&self) -> (&'static str, &[u8], &'static str) {
        match self {
            Misuse::NoFile => ("no file is named", b"", "; rewrite --help says more"),
            Misuse::NoName => (
                "the file's name is empty, or longer than 4096 bytes",
                b"",
                "",
            ),
            Misuse::SecondFile(name) => ("a second file, ", name, ": one is rewritten at a time"),
            Misuse::UnknownOption(word) => ("unknown option ", word, "; rewrite --help says more"),
            Misuse::NoRule => (
                "--token: the rule and the token type are missing",
                b"",
                "; rewrite --help says more",
            ),
            Misuse::NoType => (
                "--token: the token type is missing",
                b"",
                "; rewrite --help says more",
            ),
            Misuse::WrongRule(word) => ("--token: '", word, "' is no rule, a number from 0 on"),
            Misuse::WrongType(word) => (
                "--token: '",
                word,
                "' is no token type, a number from -2147483648 to 2147483647",
            ),
            Misuse::OutOfMemory => ("there is no memory for the command line", b"", ""),
        }
    }

    pub fn print(&self, to: &impl Print) -> io::Result<()> {
        let (before, argument, behind) = self.parts();
        print!(to; "rewrite: {before}")?;
        to.write_all(argument)?;
        println!(to; "{behind}")
    }
}
