// How large a map is, and where its differences stand in the numbers of its tower.
ghost use Rattle.std.specs.Prelude.{◌≡◌, ◌+◌, ◌*◌, ◌/◌, ◌<◌, ◌≤◌};
ghost use Rattle.levels.specs.Numbering.{across_index, down_index};
ghost use Rattle.maps.specs.Limits.{max_side};

// So many places across and down, of each no more than the longest side.
#[derive(Clone, Copy, PartialEq, Eq, Debug)]
pub struct Size {
    pub wide: usize,
    pub high: usize,
    ghost wide_fits: { wide ≤ max_side },
    ghost high_fits: { high ≤ max_side },
}

impl Size {
    // As wide as high.
    pub fn square(side: usize) -> Size
        requires { side ≤ max_side }
        ensures { (result.wide ≡ side) × (result.high ≡ side) }
    {
        Size {
            wide: side,
            high: side,
        }
    }

    // The size one level up: half of it, where a last place alone counts as a pair.
    pub fn up(self) -> Size
        ensures wide { result.wide ≡ (self.wide + 1) / 2 }
        ensures high { result.high ≡ (self.high + 1) / 2 }
    {
        Size {
            wide: (self.wide + 1) / 2,
            high: (self.high + 1) / 2,
        }
    }

    // The index of the difference across of the pair x in the row y.
    pub fn across_at(self, x: usize, y: usize) -> usize
        requires { (x ≤ self.wide) × (y ≤ self.high) }
        ensures value { result ≡ across_index self.wide self.high 0 x y }
        ensures within { 2 * x + 1 < self.wide → y < self.high → result < self.wide * self.high }
    {
        (self.wide + 1) / 2 * self.high + (y * (self.wide / 2) + x)
    }

    // The index of the difference down of the pair y in the column x of the means of rows.
    pub fn down_at(self, x: usize, y: usize) -> usize
        requires { (x ≤ self.wide) × (y ≤ self.high) }
        ensures value { result ≡ down_index self.wide self.high 0 x y }
        ensures within { x < (self.wide + 1) / 2 → 2 * y + 1 < self.high → result < self.wide * self.high }
    {
        (self.wide + 1) / 2 * ((self.high + 1) / 2) + (y * ((self.wide + 1) / 2) + x)
    }
}
