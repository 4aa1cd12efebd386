// Why a file is no study's.
use crate::items::Item;
use std::fmt;
use thiserror::Error;

/// The most that a count may be: a number, or what the rows ask for.
#[derive(Clone, Copy, Debug, PartialEq, Eq)]
pub enum Most {
    Count(usize),
    OneMoreThanRows,
}

impl fmt::Display for Most {
    fn fmt<W: fmt::Write>(&self, f: &mut fmt::Formatter<W>) -> fmt::Result {
        match *self {
            Most::Count(n) => write!(f, "{n}"),
            Most::OneMoreThanRows => write!(f, "one more than the rows"),
        }
    }
}

/// What is wrong where a number, or the end, was expected.
#[derive(Clone, Copy, Debug, PartialEq, Eq, Error)]
pub enum FaultKind {
    #[error("this is no whole number; expected: {0}")]
    NoNumber(Item),
    #[error("this number is above 18,446,744,073,709,551,615; expected: {0}")]
    AboveAll(Item),
    #[error("the file ends here; expected: {0}")]
    Ended(Item),
    #[error("too large: {item}, at most {most}")]
    TooMany { item: Item, most: Most },
    #[error("too many numbers; expected: the end of the file")]
    LeftOver,
}

/// The first fault of a file, and its line, from 1.
#[derive(Clone, Copy, Debug, PartialEq, Eq, Error)]
#[error("line {line}: {kind}")]
pub struct Fault {
    pub line: u64,
    pub kind: FaultKind,
}

/// Why a file gives no study.
#[derive(Clone, Copy, Debug, PartialEq, Eq, Error)]
pub enum FileError {
    #[error("cannot be opened")]
    Unopened,
    #[error("cannot be read")]
    Unread,
    #[error("is longer than 65,536 bytes")]
    TooLong,
    #[error(transparent)]
    Fault(#[from] Fault),
}
