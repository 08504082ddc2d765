// The tower of a map, level by level: a step across and a step down that call each other.
#![tactic(auto)]

ghost use Rattle.std.specs.Prelude.{◌≡◌, ℕ, ◌+◌, ◌*◌, ◌/◌, ◌%◌, ◌<◌, ◌≤◌, length};
ghost use Rattle.pairs.specs.Pairs.{Height};
ghost use Rattle.levels.specs.Maps.{apart, line_up, Map, size as size_of};
ghost use Rattle.levels.specs.Numbering.{Holds, map_in};
ghost use Rattle.maps.specs.Limits.{max_side};
ghost use Rattle.maps.specs.Rows.{line};
ghost use Rattle.maps.specs.Sizes.{Covers, HasPlaces};
ghost use Rattle.building.specs.Steps.{BeginsParted, BeginsWith, Copied, PairsHalved, RowsHalved};

use maps::HeightMap;
use maps::quad::Quad;
use maps::rows::halve_row;
use maps::size::Size;
use pairs::Pair;

// The row at which the means of row y stand: those of even rows first, then those of odd ones. So a pair of rows that are
// halved down stands as far apart as every other, and the step down is one loop over the whole level.
fn row_to(high: usize, y: usize) -> usize
    requires { (y < high) × (high ≤ max_side) }
    ensures even { y % 2 ≡ 0 → result ≡ y / 2 }
    ensures odd { y % 2 ≡ 1 → result ≡ (high + 1) / 2 + y / 2 }
    ensures within { result < high }
{
    if y % 2 == 0 {
        y / 2
    } else {
        (high + 1) / 2 + y / 2
    }
}

// Each row of a map halved. By number: three places are reckoned from it, and `chunks` takes no width of 0.
fn halve_rows(map: &[i32], room: &mut [i32], size: Size)
    requires lengths { Covers size map.now × Covers size room.old }
    requires heights { (i : ℕ) → i < size.wide * size.high → Height (line map.now i) }
    ensures { RowsHalved map.now room.old room.new size.wide size.high size.high }
{
    let half = (size.wide + 1) / 2;
    let pairs = size.wide / 2;
    for y in 0..size.high {
        let row = &map[y * size.wide..y * size.wide + size.wide];
        let (means, differences) = room.split_at_mut(half * size.high);
        let to = row_to(size.high, y) * half;
        halve_row(
            row,
            &mut means[to..to + half],
            &mut differences[y * pairs..y * pairs + pairs],
        );
    }
}

// Upper places halved with the lower ones below them: the means go to `out`, the differences take the place of the lower ones.
fn halve_columns(upper: &[i32], lower: &mut [i32], out: &mut [i32])
    requires lengths { (length lower.old ≤ length upper.now) × (length lower.old ≤ length out.old) }
    requires heights { (i : ℕ) → i < length lower.old → Height (line upper.now i) × Height (line lower.old i) }
    ensures { PairsHalved (length lower.old) upper.now lower.old lower.new out.new }
{
    for (i, place) in lower.iter_mut().enumerate() {
        let pair = Pair::of(upper[i], *place);
        out[i] = pair.mean;
        *place = pair.difference;
    }
}

// The numbers from an index on copied, up to another: a last row without one below it goes up as it is. The places are the same in
// both, so they are named once.
fn copy_rest(room: &[i32], out: &mut [i32], from: usize, end: usize)
    requires { (from ≤ end) × ((end ≤ length room.now) × (end ≤ length out.old)) }
    ensures { Copied room.now out.old out.new from end }
{
    out[from..end].copy_from_slice(&room[from..end]);
}

// The tower of a map of two by two: four heights by value become one, with what leads back.
fn put_quad(map: &[i32], room: &mut [i32])
    requires lengths { (4 ≤ length map.now) × (4 ≤ length room.old) }
    requires heights { (i : ℕ) → i < 4 → Height (line map.now i) }
    ensures rest { (i : ℕ) → 4 ≤ i → line room.new i ≡ line room.old i }
    ensures holds { (k : ℕ) (p : Map) → size_of k 2 ≡ 1 → BeginsWith 2 2 map.now p → Holds k 2 2 room.new p }
{
    let quad = Quad::of(map[0], map[1], map[2], map[3]);
    room[0..4].copy_from_slice(&<[i32; 4]>::from(quad));
}

// What is known of the room and the scratch stands in clauses and in no type, since the steps write them in turn.

// The step across: the tower of the map that the scratch begins with, from its rows on. Nothing past it in the room is another.
#[cycle(step_across_step_down)]
fn step_across(room: &mut [i32], scratch: &mut [i32], size: Size)
    requires some { HasPlaces size }
    requires lengths { Covers size room.old × Covers size scratch.old }
    requires heights { (i : ℕ) → i < size.wide * size.high → Height (line scratch.old i) }
    ensures rest { (i : ℕ) → size.wide * size.high ≤ i → line room.new i ≡ line room.old i }
    ensures holds { (k : ℕ) (p : Map) → size_of k size.wide ≡ 1 → size_of k size.high ≡ 1 → BeginsWith size.wide size.high scratch.old p → Holds k size.wide size.high room.new p }
{
    if size.wide + size.high == 2 {
        room[0] = scratch[0];
    } else if size.wide == 2 && size.high == 2 {
        put_quad(scratch, room);
    } else {
        halve_rows(scratch, room, size);
        step_down(room, scratch, size);
    }
}

// The step down: the same from the means of the rows on, which the room begins with; the coarser map goes into the scratch.
#[cycle(step_across_step_down)]
fn step_down(room: &mut [i32], scratch: &mut [i32], size: Size)
    requires some { (2 < size.wide + size.high) × HasPlaces size }
    requires lengths { ((size.wide + 1) / 2 * size.high ≤ length room.old) × ((size.wide + 1) / 2 * ((size.high + 1) / 2) ≤ length scratch.old) }
    requires heights { (i : ℕ) → i < (size.wide + 1) / 2 * size.high → Height (line room.old i) }
    ensures rest { (i : ℕ) → (size.wide + 1) / 2 * size.high ≤ i → line room.new i ≡ line room.old i }
    ensures holds { (k : ℕ) (q : Map) → size_of k ((size.wide + 1) / 2) ≡ 1 → size_of k ((size.high + 1) / 2) ≡ 1 → BeginsParted ((size.wide + 1) / 2) size.high room.old q → Holds k ((size.wide + 1) / 2) ((size.high + 1) / 2) room.new (λ x y. line_up size.high (q x) y) }
    ensures downs { (q : Map) → BeginsParted ((size.wide + 1) / 2) size.high room.old q → (x y : ℕ) → x < (size.wide + 1) / 2 → y < size.high / 2 → line room.new ((size.wide + 1) / 2 * ((size.high + 1) / 2) + (y * ((size.wide + 1) / 2) + x)) ≡ apart (q x) y }
{
    let half = (size.wide + 1) / 2;
    let count = half * ((size.high + 1) / 2);
    let pairs = half * (size.high / 2);
    let (upper, lower) = room.split_at_mut(count);
    halve_columns(upper, &mut lower[0..pairs], scratch);
    copy_rest(room, scratch, pairs, count);
    step_across(room, scratch, size.up());
}

// The tower of a map, in a room of as many numbers.
pub fn build(map: &HeightMap<'_>, room: &mut [i32])
    requires some { HasPlaces map.now.size }
    requires room { Covers map.now.size room.old }
    ensures rest { (i : ℕ) → map.now.size.wide * map.now.size.high ≤ i → line room.new i ≡ line room.old i }
    ensures holds { (k : ℕ) → size_of k map.now.size.wide ≡ 1 → size_of k map.now.size.high ≡ 1 → Holds k map.now.size.wide map.now.size.high room.new (map_in map.now.size.wide map.now.heights.now) }
{
    if map.size.wide + map.size.high == 2 {
        room[0] = map.heights[0];
        return;
    }
    let mut scratch = [0; 4096];
    halve_rows(map.heights, room, map.size);
    step_down(room, &mut scratch, map.size);
}
