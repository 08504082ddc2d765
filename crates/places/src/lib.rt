// A place of a map, and the height there, from the numbers of the map's tower.
#![tactic(auto)]

ghost use Rattle.std.specs.Prelude.{◌≡◌, ℕ, suc, ◌+◌, ◌*◌, ◌/◌, ◌<◌, ◌≤◌, ◌==◌, length, ℤ, ◌+ℤ◌};
ghost use Rattle.levels.specs.Maps.{halved, line_up, Map};
ghost use Rattle.levels.specs.Numbering.{Holds};
ghost use Rattle.maps.specs.Limits.{max_side};
ghost use Rattle.maps.specs.Sizes.{Covers};
ghost use Rattle.places.specs.Lines.{DifferenceAt, Heights};

use maps::size::Size;
use pairs::Pair;

// So far across and so far down a map of that size.
#[derive(Clone, Copy, PartialEq, Eq, Debug)]
pub struct Place {
    pub size: Size,
    pub x: usize,
    pub y: usize,
    ghost across: { x < size.wide },
    ghost down: { y < size.high },
}

impl Place {
    // The place one level up that it is a part of.
    pub fn up(self) -> Place
        ensures size { (result.size.wide ≡ (self.size.wide + 1) / 2) × (result.size.high ≡ (self.size.high + 1) / 2) }
        ensures place { (result.x ≡ self.x / 2) × (result.y ≡ self.y / 2) }
    {
        Place {
            size: self.size.up(),
            x: self.x / 2,
            y: self.y / 2,
        }
    }

    // Whether its map has no other place.
    pub fn is_alone(self) -> bool
        ensures { result ≡ (self.size.wide + self.size.high == 2) }
    {
        self.size.wide + self.size.high == 2
    }
}

// What the place x of a line is above the mean of its pair: what it is above a mean of 0, by the difference, which stands at an
// index. A last place alone went up as it is.
fn line_rise(tower: &[i32], places: usize, x: usize, index: usize) -> i32
    requires place { (x < places) × (places ≤ max_side) }
    requires room { 2 * (x / 2) + 1 < places → index < length tower.now }
    ensures { (f : ℕ → ℤ) → Heights places f → DifferenceAt places f x tower.now index → f x ≡ line_up places f (x / 2) +ℤ result }
{
    if 2 * (x / 2) + 1 >= places {
        return 0;
    }
    let pair = Pair {
        mean: 0,
        difference: tower[index],
    };
    pair.one(x)
}

// What a place of a map is above its place one level up.
fn rise(tower: &[i32], place: Place) -> i32
    requires { Covers place.size tower.now }
    ensures { (k : ℕ) (p : Map) → Holds (suc k) place.size.wide place.size.high tower.now p → p place.x place.y ≡ halved place.size.wide place.size.high p (place.x / 2) (place.y / 2) +ℤ result }
{
    let Place { size, x, y } = place;
    let across = line_rise(tower, size.wide, x, size.across_at(x / 2, y));
    let down = line_rise(tower, size.high, y, size.down_at(x / 2, y / 2));
    across.wrapping_add(down)
}

// The height at a place of a map, from the numbers that begin with its tower: the top, and what the place is above it level by level.
pub fn height_at(tower: &[i32], mut place: Place) -> i32
    requires { Covers place.size tower.now }
    ensures { (k : ℕ) (p : Map) → Holds k place.size.wide place.size.high tower.now p → result ≡ p place.x place.y }
{
    let mut above: i32 = 0;
    while !place.is_alone() {
        above = above.wrapping_add(rise(tower, place));
        place = place.up();
    }
    above.wrapping_add(tower[0])
}
