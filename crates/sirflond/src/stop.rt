// Why a line is not obeyed to its end: it is refused, or the program cannot go on. What failed is kept as it is, since it goes
// through each line's steps by value, and becomes the program's error where that ends.
use refusals::Refusal;
use std::alloc::AllocError;
use std::io;

#[derive(Debug, Drop)]
pub enum Stop {
    Refused(Refusal),
    OutOfMemory(AllocError),
    Failed(io::Error),
}

impl From<Refusal> for Stop {
    fn from(refusal: Refusal) -> Stop {
        Stop::Refused(refusal)
    }
}

impl From<AllocError> for Stop {
    fn from(error: AllocError) -> Stop {
        Stop::OutOfMemory(error)
    }
}

impl From<io::Error> for Stop {
    fn from(error: io::Error) -> Stop {
        Stop::Failed(error)
    }
}
