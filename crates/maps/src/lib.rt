// Maps that are lent, their limits, and what is done with their rows and quads.
#![tactic(auto)]

ghost use Rattle.std.specs.Prelude.{◌≡◌, ℕ, ◌*◌, ◌<◌, ◌≤◌, IsTrue, length, pos, MatchOption};
ghost use Rattle.pairs.specs.Pairs.{Height, max_height};
ghost use Rattle.levels.specs.Maps.{power};
ghost use Rattle.maps.specs.Limits.{max_k, max_side};
ghost use Rattle.maps.specs.Rows.{line};

mod lanes;
pub mod quad;
pub mod rows;
pub mod size;

use crate::size::Size;

// A map that is lent: how large it is, and its heights row by row.
#[derive(Clone, Copy, PartialEq, Eq, Debug)]
pub struct HeightMap<'a> {
    pub size: Size,
    pub heights: &'a [i32],
    ghost whole: { size.wide * size.high ≤ length heights.now },
    ghost right: { (i : ℕ) → i < size.wide * size.high → Height (line heights.now i) },
}

impl HeightMap<'_> {
    // The most levels, the longest side and the largest height.
    pub const MAX_K: u64 = 7;

    pub const MAX_SIDE: usize = 128;

    pub const MAX_HEIGHT: i32 = 65_535;

    // Whether a number is a height.
    pub fn is_height(number: i32) -> bool
        ensures holds { IsTrue result → Height number }
        ensures all { Height number → IsTrue result }
    {
        0 <= number && number <= Self::MAX_HEIGHT
    }

    // The side of a map of k levels, 2^k, or none where there are too many.
    pub fn side(k: u64) -> Option<usize>
        ensures { MatchOption result (max_k < k) (λ s. (k ≤ max_k) × (s ≡ power k)) }
    {
        if k <= Self::MAX_K { Some(1 << k) } else { None }
    }

    // The limits are those of the definitions.
    pub fn limits() -> (u64, usize, i32)
        ensures k { result.0 ≡ max_k }
        ensures side { result.1 ≡ max_side }
        ensures height { result.2 ≡ pos max_height }
    {
        (Self::MAX_K, Self::MAX_SIDE, Self::MAX_HEIGHT)
    }
}
