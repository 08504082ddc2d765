// Two heights become their mean and their difference, and come back.
#![tactic(auto)]

ghost use Rattle.std.specs.Prelude.{◌≡◌, ◌%◌, pos, ◌+ℤ◌, ◌-ℤ◌};
ghost use Rattle.std.specs.Int.{int_wrap, w32};
ghost use Rattle.pairs.specs.Pairs.{BothBack, Difference, difference_of, first_of, half, Height, mean_of, one_of, second_of};

// What two heights become. Numbers that are no heights wrap around at 32 bits, and do no harm.
#[derive(Clone, Copy)]
pub struct Pair {
    pub mean: i32,
    pub difference: i32,
}

impl Pair {
    // Two heights as a pair.
    pub fn of(left: i32, right: i32) -> Pair
        ensures mean { result.mean ≡ half (int_wrap w32 (left +ℤ right)) }
        ensures difference { result.difference ≡ int_wrap w32 (left -ℤ right) }
        ensures exact { Height left → Height right → (result.mean ≡ mean_of left right) × (result.difference ≡ difference_of left right) }
    {
        Pair {
            mean: halve(left.wrapping_add(right)),
            difference: left.wrapping_sub(right),
        }
    }

    // The left or upper one of the two heights.
    pub fn first(self) -> i32
        ensures wraps { result ≡ int_wrap w32 (self.mean +ℤ half (int_wrap w32 (self.difference +ℤ pos 1))) }
        ensures exact { Height self.mean → Difference self.difference → result ≡ first_of self.mean self.difference }
    {
        self.mean
            .wrapping_add(halve(self.difference.wrapping_add(1)))
    }

    // The right or lower one.
    pub fn second(self) -> i32
        ensures wraps { result ≡ int_wrap w32 (self.mean +ℤ half (int_wrap w32 (self.difference +ℤ pos 1)) -ℤ self.difference) }
        ensures exact { Height self.mean → Difference self.difference → result ≡ second_of self.mean self.difference }
    {
        self.first().wrapping_sub(self.difference)
    }

    // The one that stands at a place of a line: the first at an even place, the second at an odd one.
    pub fn one(self, place: usize) -> i32
        ensures first { place % 2 ≡ 0 → result ≡ int_wrap w32 (self.mean +ℤ half (int_wrap w32 (self.difference +ℤ pos 1))) }
        ensures second { place % 2 ≡ 1 → result ≡ int_wrap w32 (self.mean +ℤ half (int_wrap w32 (self.difference +ℤ pos 1)) -ℤ self.difference) }
        ensures exact { Height self.mean → Difference self.difference → result ≡ one_of place self.mean self.difference }
    {
        if place % 2 == 0 {
            self.first()
        } else {
            self.second()
        }
    }
}

// Half of a number, rounded toward what is smaller.
fn halve(x: i32) -> i32
    ensures { result ≡ half x }
{
    x >> 1
}

// Mean and difference give back both heights.
pub fn both_back()
    ensures { BothBack }
{}
