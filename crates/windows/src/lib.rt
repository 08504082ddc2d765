// Windows of a map, from the numbers of its tower, each made in its own room.
#![tactic(auto)]

ghost use Rattle.std.specs.Prelude.{◌≡◌, ℕ, suc, ◌+◌, ◌*◌, ◌/◌, ◌<◌, ◌≤◌, length, pos, slice_index_or};
ghost use Rattle.std.specs.List.{between};
ghost use Rattle.levels.specs.Maps.{Map};
ghost use Rattle.maps.specs.Rows.{line, OneBack};
ghost use Rattle.windows.specs.Areas.{high_above, IsOf, RowAbove, RowOfMeans, RowShown, Shows, ShowsAbove, wide_above};

pub mod area;

use crate::area::Area;
use maps::rows::row_back;
use pairs::Pair;
use places::{Place, height_at};

// Of each pair the one at a place of its line.
fn ones(place: usize, means: &[i32], differences: &[i32], row: &mut [i32])
    requires { (length row.old ≤ length means.now) × (length row.old ≤ length differences.now) }
    ensures { (i : ℕ) → i < length row.old → OneBack place means.now differences.now i (line row.new i) }
{
    for (i, one) in row.iter_mut().enumerate() {
        let pair = Pair {
            mean: means[i],
            difference: differences[i],
        };
        *one = pair.one(place);
    }
}

// The room and the numbers aside are lent beside the area, since they are written, and the area is only read.
impl<'a> Area<'a> {
    // The places one level up that these are parts of.
    fn up(&self) -> Area<'a>
        ensures tower { result.tower.now ≡ self.now.tower.now }
        ensures size { (result.size.wide ≡ (self.now.size.wide + 1) / 2) × (result.size.high ≡ (self.now.size.high + 1) / 2) }
        ensures from { (result.x ≡ self.now.x / 2) × (result.y ≡ self.now.y / 2) }
        ensures extent { (result.wide ≡ wide_above self.now) × (result.high ≡ high_above self.now) }
    {
        Area {
            tower: self.tower,
            size: self.size.up(),
            x: self.x / 2,
            y: self.y / 2,
            wide: self.wide_above(),
            high: (self.y % 2 + self.high + 1) / 2,
        }
    }

    // How many places wide that is.
    fn wide_above(&self) -> usize
        ensures { result ≡ wide_above self.now }
    {
        (self.x % 2 + self.wide + 1) / 2
    }

    // The height at the first place.
    fn first_height(&self) -> i32
        requires { (0 < self.now.wide) × (0 < self.now.high) }
        ensures { (k : ℕ) (p : Map) → IsOf self.now k p → result ≡ p self.now.x self.now.y }
    {
        let place = Place {
            size: self.size,
            x: self.x,
            y: self.y,
        };
        height_at(self.tower, place)
    }

    // The means that a row is made from, from those of the row above it.
    fn row_means(&self, v: usize, coarse: &[i32], means: &mut [i32])
        requires row { v < self.now.high }
        requires lengths { (length coarse.now ≡ wide_above self.now) × (length means.old ≡ wide_above self.now) }
        ensures { (k : ℕ) (p : Map) → IsOf self.now (suc k) p → RowAbove self.now v coarse.now p → RowOfMeans self.now v means.new p }
    {
        let y = self.y + v;
        if 2 * (y / 2) + 1 < self.size.high {
            let at = self.size.down_at(self.x / 2, y / 2);
            ones(y, coarse, &self.tower[at..at + means.len()], means);
        } else {
            means.copy_from_slice(coarse);
        }
    }

    // A row, from the means of its pairs.
    fn row_heights(&self, v: usize, means: &[i32], row: &mut [i32])
        requires row { v < self.now.high }
        requires lengths { (length means.now ≡ wide_above self.now) × (length row.old ≡ self.now.wide) }
        ensures { (k : ℕ) (p : Map) → IsOf self.now (suc k) p → RowOfMeans self.now v means.now p → RowShown self.now v row.new p }
    {
        let at = self.size.across_at(self.x / 2, self.y + v);
        let count = self.size.wide / 2 - self.x / 2;
        row_back(
            self.size.wide,
            self.x,
            means,
            &self.tower[at..at + count],
            row,
        );
    }

    // A row made where it belongs, from the row above it, which stands at `from`: both in one room, where the second is made over
    // the first.
    fn finer_row(&self, v: usize, from: usize, room: &mut [i32], aside: &mut [i32; 64])
        requires row { (v < self.now.high) × (0 < self.now.wide) }
        requires enough { (from + wide_above self.now ≤ length room.old) × (self.now.wide * self.now.high ≤ length room.old) }
        ensures right { (k : ℕ) (p : Map) → IsOf self.now (suc k) p → RowAbove self.now v (between from (from + wide_above self.now) room.old) p → RowShown self.now v (between (v * self.now.wide) (v * self.now.wide + self.now.wide) room.new) p }
        ensures rest { (j : ℕ) → (v * self.now.wide ≤ j → j < v * self.now.wide + self.now.wide → ⊥) → slice_index_or room.new j (pos 0) ≡ slice_index_or room.old j (pos 0) }
    {
        let means = &mut aside[0..self.wide_above()];
        self.row_means(v, &room[from..from + means.len()], means);
        let to = v * self.wide;
        self.row_heights(v, means, &mut room[to..to + self.wide]);
    }

    // The area from the one above it that the room begins with, in its place. The last row comes first: a row reaches no row above
    // another that is still to be read.
    fn finer(&self, room: &mut [i32], aside: &mut [i32; 64])
        requires some { 0 < self.now.wide }
        requires enough { self.now.wide * self.now.high ≤ length room.old }
        ensures { (k : ℕ) (p : Map) → IsOf self.now (suc k) p → ShowsAbove self.now room.old p → Shows self.now room.new p }
    {
        for v in (0..self.high).rev() {
            let from = (self.y % 2 + v) / 2 * self.wide_above();
            self.finer_row(v, from, room, aside);
        }
    }

    // The area, made at the front of the room: one place by itself, else first the area above it, and then this one in its place.
    fn show_in(&self, room: &mut [i32], aside: &mut [i32; 64])
        requires some { (0 < self.now.wide) × (0 < self.now.high) }
        requires enough { self.now.wide * self.now.high ≤ length room.old }
        ensures { (k : ℕ) (p : Map) → IsOf self.now k p → Shows self.now room.new p }
    {
        if self.wide + self.high == 2 {
            room[0] = self.first_height();
            return;
        }
        self.up().show_in(room, aside);
        self.finer(room, aside);
    }

    // Shows the heights, row by row. A level of a larger map is shown as an area of a map of the level's size, since the first
    // numbers of a tower are the tower of the level. Numbers that are no tower of heights wrap around at 32 bits, and do no harm.
    pub fn show(&self, room: &mut [i32])
        requires { length room.old ≡ self.now.wide * self.now.high }
        ensures { (k : ℕ) (p : Map) → IsOf self.now k p → Shows self.now room.new p }
    {
        // one place needs no numbers aside
        if self.wide == 1 && self.high == 1 {
            room[0] = self.first_height();
        } else if self.wide > 0 && self.high > 0 {
            let mut aside = [0; 64];
            self.show_in(room, &mut aside);
        }
    }
}
