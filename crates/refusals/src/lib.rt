// Why a call or a line of text is refused.
#![tactic(auto)]

ghost use Rattle.std.specs.Prelude.{◌≡◌, Some};
ghost use Rattle.refusals.specs.Refusals.{number as number_of, place as place_of, refused_text};

use std::error::Error;
use std::fmt;

// Each case with its place.
#[derive(Clone, Copy, PartialEq, Eq, Debug)]
pub enum Refusal {
    // More levels than a map can have: how many.
    TooManyLevels(u64),
    // A number of a map or a tower that is missing, too many or no height: its place.
    WrongNumber(u64),
    // A room of another length than it should have: its length.
    WrongRoom(u64),
    // A level that the map does not have.
    NoSuchLevel,
    // A window or a place beyond the map at its level.
    OffTheMap,
    // A height above the largest.
    TooHigh,
    // A text that cannot be read: its line.
    Unreadable(u64),
}

impl Refusal {
    // The number by which it is known outside.
    pub fn number(self) -> u64
        ensures { result ≡ number_of self }
    {
        match self {
            Refusal::TooManyLevels(_) => 1,
            Refusal::WrongNumber(_) => 2,
            Refusal::WrongRoom(_) => 3,
            Refusal::NoSuchLevel | Refusal::OffTheMap | Refusal::TooHigh => 4,
            Refusal::Unreadable(_) => 5,
        }
    }

    // Its place; of the number 4 which it is.
    pub fn place(self) -> u64
        ensures { result ≡ place_of self }
    {
        match self {
            Refusal::TooManyLevels(k) => k,
            Refusal::WrongNumber(at) => at,
            Refusal::WrongRoom(length) => length,
            Refusal::NoSuchLevel => 0,
            Refusal::OffTheMap => 1,
            Refusal::TooHigh => 2,
            Refusal::Unreadable(line) => line,
        }
    }
}

// Its number and its place.
impl fmt::Display for Refusal {
    ghost output = { λ e. Some (refused_text e) };

    fn fmt<W: fmt::Write>(&self, f: &mut fmt::Formatter<W>) -> fmt::Result {
        let number = self.number();
        let place = self.place();
        write!(f, "refused {number} {place}")
    }
}

impl Error for Refusal {}
