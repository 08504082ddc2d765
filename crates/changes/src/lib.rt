// The height at one place, changed in the numbers of a tower.
#![tactic(auto)]

ghost use Rattle.std.specs.Prelude.{◌≡◌, ℕ, ◌+◌, ◌*◌, ◌/◌, ◌<◌, ◌≤◌, List, length, ℤ, pos, ◌+ℤ◌, ◌-ℤ◌, ◌≢◌, slice_index_or};
ghost use Rattle.std.specs.List.{ContainsAt};
ghost use Rattle.pairs.specs.Pairs.{Difference, half, Height};
ghost use Rattle.levels.specs.Maps.{line_up, Map, size, with_height};
ghost use Rattle.levels.specs.Numbering.{Holds, touched};
ghost use Rattle.maps.specs.Limits.{max_side};
ghost use Rattle.maps.specs.Sizes.{Covers};
ghost use Rattle.places.specs.Lines.{DifferenceAt, Heights};
ghost use Rattle.changes.specs.Carried.{Carried, Raised};

use places::{Place, height_at};

// The change of the mean of a pair of which one height changes by a number. The sum of two numbers is even where their difference is.
fn mean_change(difference: i32, by: i32) -> i32
    ensures { Difference by → (a b : ℤ) → difference ≡ a -ℤ b → half (a +ℤ b +ℤ by) ≡ half (a +ℤ b) +ℤ result }
{
    (difference & 1).wrapping_add(by) >> 1
}

// A change of the height at the place x of a line: the difference of its pair, which stands at an index, follows.
// Answers the change one level up, of the pair's mean or of a last place alone.
fn carry_line(tower: &mut [i32], places: usize, x: usize, index: usize, by: i32) -> i32
    requires place { (x < places) × (places ≤ max_side) }
    requires room { 2 * (x / 2) + 1 < places → index < length tower.old }
    ensures exact { (f g : ℕ → ℤ) → Raised f g x by → Heights places f → Heights places g → DifferenceAt places f x tower.old index → (line_up places g (x / 2) ≡ line_up places f (x / 2) +ℤ result) × DifferenceAt places g x tower.new index }
    ensures rest { (i : ℕ) → (2 * (x / 2) + 1 < places → i ≢ index) → slice_index_or tower.new i (pos 0) ≡ slice_index_or tower.old i (pos 0) }
{
    if 2 * (x / 2) + 1 >= places {
        return by;
    }
    let difference = tower[index];
    tower[index] = if x % 2 == 0 {
        difference.wrapping_add(by)
    } else {
        difference.wrapping_sub(by)
    };
    mean_change(difference, by)
}

// A change of one height: the differences of its pairs across and down follow. Answers the change one level up, and whoever
// carries that on has carried this one. The numbers are lent beside the place, since a struct that holds them would be taken apart
// and made again at each level.
fn carry_level(tower: &mut [i32], place: Place, by: i32) -> i32
    requires more { 2 < place.size.wide + place.size.high }
    requires room { Covers place.size tower.old }
    ensures { (zs : List ℤ) → Carried ((place.size.wide + 1) / 2) ((place.size.high + 1) / 2) (place.x / 2) (place.y / 2) result tower.new zs → Carried place.size.wide place.size.high place.x place.y by tower.old zs }
{
    let Place { size, x, y } = place;
    let row_by = carry_line(tower, size.wide, x, size.across_at(x / 2, y), by);
    carry_line(tower, size.high, y, size.down_at(x / 2, y / 2), row_by)
}

// A change of one height: the numbers of each level follow, the finest first, until one place is left or nothing changes.
fn carry(tower: &mut [i32], mut place: Place, mut by: i32)
    requires { Covers place.size tower.old }
    ensures { Carried place.size.wide place.size.high place.x place.y by tower.old tower.new }
{
    while by != 0 {
        if place.is_alone() {
            tower[0] = tower[0].wrapping_add(by);
            return;
        }
        by = carry_level(tower, place, by);
        place = place.up();
    }
}

// Sets the height at a place of a map, in the numbers that begin with its tower.
pub fn change(tower: &mut [i32], place: Place, height: i32)
    requires { Covers place.size tower.old }
    ensures holds { (k : ℕ) (p : Map) → Holds k place.size.wide place.size.high tower.old p → Height height → Holds k place.size.wide place.size.high tower.new (with_height p place.x place.y height) }
    ensures rest { (k i : ℕ) → size k place.size.wide ≡ 1 → size k place.size.high ≡ 1 → (ContainsAt (touched k place.size.wide place.size.high place.x place.y) i → ⊥) → slice_index_or tower.new i (pos 0) ≡ slice_index_or tower.old i (pos 0) }
{
    let by = height.wrapping_sub(height_at(tower, place));
    carry(tower, place, by)
}
