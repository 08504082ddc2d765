// What is shown of a map.
ghost use Rattle.std.specs.Prelude.{◌+◌, ◌*◌, ◌≤◌, length};

use maps::size::Size;

// Places of a map, so wide and high, from x across and y down, and the numbers that begin with the tower of the map.
#[derive(Clone, Copy, PartialEq, Eq, Debug)]
pub struct Area<'a> {
    pub tower: &'a [i32],
    pub size: Size,
    pub x: usize,
    pub y: usize,
    pub wide: usize,
    pub high: usize,
    ghost room: { size.wide * size.high ≤ length tower.now },
    ghost across: { x + wide ≤ size.wide },
    ghost down: { y + high ≤ size.high },
}
