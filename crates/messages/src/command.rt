// What a line asks for.
#[derive(Clone, Copy, PartialEq, Eq, Debug)]
pub enum Command {
    // A map of 2^k by 2^k places: its rows follow.
    Map {
        k: u64,
    },
    // The level of the windows that follow.
    Level {
        level: u64,
    },
    // The heights of a window, from x across and y down.
    Window {
        x: u64,
        y: u64,
        wide: u64,
        high: u64,
    },
    // One height set to another.
    Set {
        x: u64,
        y: u64,
        height: u64,
    },
    // The tower's numbers.
    Tower,
    // The coarse part for a level.
    Coarse {
        level: u64,
    },
}
