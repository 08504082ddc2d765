// A map built and changed: what whole runs of calls leave.
ghost use Rattle.std.specs.Prelude.{◌≡◌, ◌*◌, length, Some, None, MatchResult};
ghost use Rattle.levels.specs.Maps.{Map};
ghost use Rattle.levels.specs.Numbering.{Holds};
ghost use Rattle.tower.specs.Calls.{Answered};
ghost use Rattle.tower.specs.Known.{SideOf};
ghost use Rattle.tower.specs.Runs.{CallsEitherOrder, CallsUndone, first_refusal, made_all, Replayed, replay_refusal};

use crate::checks::{check_build, check_change};
use maps::size::Size;
use places::Place;
use refusals::Refusal;

// One height set to another.
#[derive(Clone, Copy, PartialEq, Eq, Debug)]
pub struct Change {
    pub x: u64,
    pub y: u64,
    pub height: u64,
}

// Changes of a tower of so many numbers: the first that is refused.
fn check_changes(k: u64, tower: usize, changes: &[Change]) -> Result<(), Refusal>
    ensures { MatchResult result (λ _. first_refusal k tower changes.now ≡ None) (λ e. first_refusal k tower changes.now ≡ Some e) }
{
    for change in changes {
        check_change(k, tower, change.x, change.y, change.height)?;
    }
    Ok(())
}

// Changes that are known to be taken, made one after the other.
fn change_all(k: u64, size: Size, tower: &mut [i32], changes: &[Change])
    requires side { SideOf k size.wide × (size.high ≡ size.wide) }
    requires whole { length tower.old ≡ size.wide * size.wide }
    requires taken { first_refusal k (length tower.old) changes.now ≡ None }
    ensures { (p : Map) → Holds k size.wide size.high tower.old p → Holds k size.wide size.high tower.new (made_all p changes.now) }
{
    for change in changes {
        let place = Place {
            size,
            x: change.x as usize,
            y: change.y as usize,
        };
        changes::change(tower, place, change.height as i32);
    }
}

// A map built and then changed, place by place. Where the map or one of the changes is refused nothing is written.
pub fn replay(k: u64, heights: &[i32], changes: &[Change], tower: &mut [i32]) -> Result<(), Refusal>
    ensures { Answered (replay_refusal k heights.now changes.now (length tower.old)) result tt tower.old tower.new (Replayed k heights.now changes.now tower.new) }
{
    let map = check_build(k, heights, tower.len())?;
    check_changes(k, tower.len(), changes)?;
    building::build(&map, tower);
    change_all(k, map.size, tower, changes);
    Ok(())
}

// Two changes at different places leave the same tower in either order.
pub fn either_order()
    ensures { CallsEitherOrder }
{}

// A change back leaves the tower that there was.
pub fn undone()
    ensures { CallsUndone }
{}
