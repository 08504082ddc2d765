// The same laws for maps of 2^k by 2^k places, in words without sizes: they stand beside those of any size, so that a reader may
// believe these shorter words alone.
ghost use Rattle.levels.specs.SquareLaws.{Between, BothTheSame, ChangesFew, PartIsTower, ShowsAll, ShowsHeld, WindowOnly};

// Sizes, levels, towers, numbering and what is shown are those of any size.
pub fn both_the_same()
    ensures { BothTheSame }
{}

// At every level the tower shows the map halved so often.
pub fn shows_all()
    ensures { ShowsAll }
{}

// So does any tower with the same numbers.
pub fn shows_held()
    ensures { ShowsHeld }
{}

// A place at a level lies between the least and the largest height of its square.
pub fn between()
    ensures { Between }
{}

// A change of one height changes one difference across and one down of each level.
pub fn changes_few()
    ensures { ChangesFew }
{}

// What lies beside the squares of a place does not matter for it.
pub fn window_only()
    ensures { WindowOnly }
{}

// The first numbers of a tower are the tower of the smaller map.
pub fn part_is_tower()
    ensures { PartIsTower }
{}
