// The laws of halved maps and their towers: each is the contract of a function, so that the crate is proved only with it.
#![tactic(auto)]

ghost use Rattle.levels.specs.Examples.{SmallExample};
ghost use Rattle.levels.specs.Laws.{AsMany, Between, ChangesFew, EitherOrder, KeepsOrder, KeepsSlopes, LevelsEnough, ListedTower, NearMean, NumbersAll, PartIsTower, ShowsAll, ShowsHeld, TouchesFew, TowersEitherOrder, TowersUndone, Undone, WindowOnly};

pub mod square;

// At every level the tower of a map shows the map halved so often, at level 0 the map itself.
pub fn shows_all()
    ensures { ShowsAll }
{}

// So does any tower with the same numbers.
pub fn shows_held()
    ensures { ShowsHeld }
{}

// For each size there are levels enough to come to one place.
pub fn levels_enough()
    ensures { LevelsEnough }
{}

// A place at a level lies between the least and the largest height of its square.
pub fn between()
    ensures { Between }
{}

// A change of one height changes one difference across and one down of each level.
pub fn changes_few()
    ensures { ChangesFew }
{}

// Different numbers of a tower stand at different indices, and together they fill the list.
pub fn numbers_all()
    ensures { NumbersAll }
{}

// So a change touches at most 1 + 2k numbers of the list, at known indices.
pub fn touches_few()
    ensures { TouchesFew }
{}

// Two changes of a map at different places may come in either order.
pub fn either_order()
    ensures { EitherOrder }
{}

// A change back undoes a change of a map.
pub fn undone()
    ensures { Undone }
{}

// The same of towers: either order.
pub fn towers_either_order()
    ensures { TowersEitherOrder }
{}

// The same of towers: a change back.
pub fn towers_undone()
    ensures { TowersUndone }
{}

// What is shown at a place depends on nothing but the numbers on the way to it.
pub fn window_only()
    ensures { WindowOnly }
{}

// A tower has as many numbers as its map has places.
pub fn as_many()
    ensures { AsMany }
{}

// The first numbers of a tower, as many as a level has places, are the tower of the map at that level.
pub fn part_is_tower()
    ensures { PartIsTower }
{}

// A map that falls or rises along every row, or along every column, does so at every level.
pub fn keeps_slopes()
    ensures { KeepsSlopes }
{}

// Where one map is nowhere above another, no level of it is.
pub fn keeps_order()
    ensures { KeepsOrder }
{}

// A place is never above the mean of its square, and at most as many below it as its level.
pub fn near_mean()
    ensures { NearMean }
{}

// A list of as many numbers as places that holds the tower of a map is that tower written out.
pub fn listed_tower()
    ensures { ListedTower }
{}

// The map 10 13 / 20 20 has the tower 15, -9, -3 0, which leads back to it, and with 14 for 13 the tower 16, -8, -4 0.
pub fn small_example()
    ensures { SmallExample }
{}
