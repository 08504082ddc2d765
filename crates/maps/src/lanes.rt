// Four pairs at once.
ghost use Rattle.std.specs.Prelude.{◌≡◌, ℕ, ◌+◌, ◌*◌, ◌<◌, ◌≤◌, length, ℤ, FitsSigned};
ghost use Rattle.std.specs.Int.{w32};
ghost use Rattle.pairs.specs.Pairs.{Difference, first_of, Height, second_of};
ghost use Rattle.maps.specs.Rows.{line, PairsBack};

use std::simd::prelude::*;

// The firsts of four pairs.
fn firsts(means: i32x4, differences: i32x4) -> i32x4
    ensures { (i : ℕ) → i < 4 → Height (line means i) → Difference (line differences i) → line result i ≡ first_of (line means i) (line differences i) }
{
    let one = i32x4::splat(1);
    means + ((differences + one) >> one)
}

// The seconds of four pairs with these firsts.
fn seconds(firsts: i32x4, differences: i32x4) -> i32x4
    ensures { (i : ℕ) (m : ℤ) → i < 4 → Height m → Difference (line differences i) → line firsts i ≡ first_of m (line differences i) → line result i ≡ second_of m (line differences i) }
{
    firsts - differences
}

// Firsts and seconds in turn. The clauses ask that a lane fits 32 bits, since the prover knows that of lanes only by their values.
fn in_turn(firsts: i32x4, seconds: i32x4, row: &mut [i32])
    requires { length row.old ≡ 8 }
    ensures first { (i : ℕ) → i < 4 → FitsSigned w32 (line firsts i) → line row.new (2 * i) ≡ line firsts i }
    ensures second { (i : ℕ) → i < 4 → FitsSigned w32 (line seconds i) → line row.new (2 * i + 1) ≡ line seconds i }
{
    let (left, right) = firsts.interleave(seconds);
    left.copy_to_slice(&mut row[0..4]);
    right.copy_to_slice(&mut row[4..8]);
}

// The eight places of four whole pairs.
pub fn four_back(means: &[i32], differences: &[i32], row: &mut [i32])
    requires { (4 ≤ length means.now) × ((4 ≤ length differences.now) × (length row.old ≡ 8)) }
    ensures { PairsBack 0 8 means.now differences.now row.new }
{
    let differences = i32x4::from_slice(&differences[0..4]);
    let firsts = firsts(i32x4::from_slice(&means[0..4]), differences);
    in_turn(firsts, seconds(firsts, differences), row);
}
