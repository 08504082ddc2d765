// The calls on towers of 2^k by 2^k places: each answers a refusal with its place, and then has changed nothing, or what is done.
// They take the numbers as they come, since any numbers are taken or turned away.
#![tactic(auto)]

ghost use Rattle.std.specs.Prelude.{length};
ghost use Rattle.tower.specs.declared.Done.TheVariants.{Built, Changed, Shown};
ghost use Rattle.tower.specs.Calls.{Answered, BuiltTower, ChangedTower, ShownWindow};
ghost use Rattle.tower.specs.Checks.{build_refusal, change_refusal, window_refusal};

pub mod checks;
pub mod runs;

use crate::checks::{check_area, check_build, check_change};
use refusals::Refusal;

// What a call has done.
#[derive(Clone, Copy, PartialEq, Eq, Debug)]
pub enum Done {
    Built,
    Shown,
    Changed,
}

// The tower of a map, its heights row by row.
pub fn build(k: u64, heights: &[i32], room: &mut [i32]) -> Result<Done, Refusal>
    ensures { Answered (build_refusal k heights.now (length room.old)) result Built room.old room.new (BuiltTower k heights.now room.new) }
{
    let map = check_build(k, heights, room.len())?;
    building::build(&map, room);
    Ok(Done::Built)
}

// A window of the map at a level, from x across and y down, so wide and high, row by row.
pub fn window(
    k: u64,
    tower: &[i32],
    level: u64,
    x: u64,
    y: u64,
    wide: u64,
    high: u64,
    room: &mut [i32],
) -> Result<Done, Refusal>
    ensures { Answered (window_refusal k (length tower.now) level x y wide high (length room.old)) result Shown room.old room.new (ShownWindow k tower.now level x y wide high room.new) }
{
    let area = check_area(k, tower, level, x, y, wide, high, room.len())?;
    area.show(room);
    Ok(Done::Shown)
}

// The height at one place set to another, in the tower.
pub fn change(k: u64, tower: &mut [i32], x: u64, y: u64, height: u64) -> Result<Done, Refusal>
    ensures { Answered (change_refusal k (length tower.old) x y height) result Changed tower.old tower.new (ChangedTower k tower.old x y height tower.new) }
{
    let place = check_change(k, tower.len(), x, y, height)?;
    changes::change(tower, place, height as i32);
    Ok(Done::Changed)
}
