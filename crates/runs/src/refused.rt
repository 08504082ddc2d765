// What the reference refuses, and why a line of it stops.
use std::alloc::AllocError;
use std::fmt;

// Its own cases, and not the product's `Refusal`, on purpose: their numbers and places are what the product is compared with.
#[derive(Clone, Copy, PartialEq, Eq, Debug)]
pub enum Refused {
    // How many.
    TooManyLevels(u64),
    // The place that is missing, too many or no height.
    WrongNumber(u64),
    NoSuchLevel,
    OffTheMap,
    TooHigh,
    // The line.
    Unreadable(u64),
}

impl fmt::Display for Refused {
    fn fmt<W: fmt::Write>(&self, f: &mut fmt::Formatter<W>) -> fmt::Result {
        match self {
            Refused::TooManyLevels(k) => write!(f, "refused 1 {k}"),
            Refused::WrongNumber(place) => write!(f, "refused 2 {place}"),
            Refused::NoSuchLevel => write!(f, "refused 4 0"),
            Refused::OffTheMap => write!(f, "refused 4 1"),
            Refused::TooHigh => write!(f, "refused 4 2"),
            Refused::Unreadable(line) => write!(f, "refused 5 {line}"),
        }
    }
}

// Why a line of the reference stops; of its own refusals, so no `MapError`.
#[derive(Clone, Copy, Debug)]
pub enum Stopped {
    Refused(Refused),
    NoMemory(AllocError),
}

impl From<Refused> for Stopped {
    fn from(refused: Refused) -> Stopped {
        Stopped::Refused(refused)
    }
}

impl From<AllocError> for Stopped {
    fn from(error: AllocError) -> Stopped {
        Stopped::NoMemory(error)
    }
}
