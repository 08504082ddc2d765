// Want of memory as a program's error, in the words in which the library tells it where a line cannot be read. The calls
// themselves answer the library's `AllocError`.
use std::alloc::{AllocError, AllocFailed};
use std::error::Error;
use std::fmt;

#[derive(Clone, Copy, PartialEq, Eq, Debug)]
pub enum Failure {
    // Want of memory.
    NoMemory,
}

impl From<AllocError> for Failure {
    fn from(_error: AllocError) -> Failure {
        Failure::NoMemory
    }
}

// Where a value finds no place.
impl<T: Drop> From<AllocFailed<T>> for Failure {
    fn from(_refused: AllocFailed<T>) -> Failure {
        Failure::NoMemory
    }
}

// A text that is written to gives up only for want of memory.
impl From<fmt::Error> for Failure {
    fn from(_error: fmt::Error) -> Failure {
        Failure::NoMemory
    }
}

impl fmt::Display for Failure {
    ghost use Rattle.messages.specs.Writing.{failure_text};
    ghost use Rattle.std.specs.Prelude.{Some};

    ghost output = { λ _. Some failure_text };

    fn fmt<W: fmt::Write>(&self, f: &mut fmt::Formatter<W>) -> fmt::Result {
        match self {
            Failure::NoMemory => write!(f, "out of memory"),
        }
    }
}

impl Error for Failure {}
