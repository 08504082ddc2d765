// Four heights, two by two, become one with what leads back.
ghost use Rattle.std.specs.Prelude.{◌≡◌, [], ◌∷◌, ℤ};
ghost use Rattle.pairs.specs.Pairs.{Height};
ghost use Rattle.levels.specs.Numbering.{Holds, map_in};
ghost use Rattle.maps.specs.Quads.{numbers, QuadOf};

use pairs::Pair;

// The mean of four heights, the difference down of the means of their two rows, and the differences across of the upper and the lower row.
#[derive(Clone, Copy)]
pub struct Quad {
    pub mean: i32,
    pub down: i32,
    pub upper: i32,
    pub lower: i32,
}

impl Quad {
    // The heights a b, and c d below them, as a quad: the tower of that map.
    pub fn of(a: i32, b: i32, c: i32, d: i32) -> Quad
        ensures quad { Height a → Height b → Height c → Height d → QuadOf a b c d result }
        ensures tower { Height a → Height b → Height c → Height d → Holds 1 2 2 (numbers result) (map_in 2 (a ∷ b ∷ c ∷ d ∷ [])) }
    {
        let upper = Pair::of(a, b);
        let lower = Pair::of(c, d);
        let means = Pair::of(upper.mean, lower.mean);
        Quad {
            mean: means.mean,
            down: means.difference,
            upper: upper.difference,
            lower: lower.difference,
        }
    }

    // The four heights again, row by row.
    pub fn heights(self) -> [i32; 4]
        ensures { (a b c d : ℤ) → Height a → Height b → Height c → Height d → QuadOf a b c d self → result ≡ a ∷ b ∷ c ∷ d ∷ [] }
    {
        let means = Pair {
            mean: self.mean,
            difference: self.down,
        };
        let upper = Pair {
            mean: means.first(),
            difference: self.upper,
        };
        let lower = Pair {
            mean: means.second(),
            difference: self.lower,
        };
        [upper.first(), upper.second(), lower.first(), lower.second()]
    }
}

// The order of a tower.
impl From<Quad> for [i32; 4] {
    ghost from_gives = { λ q ns. ns ≡ numbers q };

    fn from(quad: Quad) -> [i32; 4] {
        [quad.mean, quad.down, quad.upper, quad.lower]
    }
}
