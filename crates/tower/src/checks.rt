// The checks of the calls, in their order. Each gives what is then known.
ghost use Rattle.std.specs.Prelude.{◌≡◌, ◌↔◌, ℕ, ◌<◌, min, ◌&&◌, IsTrue, length, Some, None, MatchResult, ◌≢◌};
ghost use Rattle.refusals.specs.declared.Refusal.TheVariants.{TooManyLevels, WrongNumber};
ghost use Rattle.pairs.specs.Pairs.{Height};
ghost use Rattle.maps.specs.Limits.{max_k};
ghost use Rattle.maps.specs.Rows.{line};
ghost use Rattle.tower.specs.Checks.{build_refusal, change_refusal, first_wrong, is_on_side, window_refusal};
ghost use Rattle.tower.specs.Known.{CanBuild, CanChange, CanShow, CanShowArea, SideOf, WholeMap};

use maps::HeightMap;
use maps::size::Size;
use places::Place;
use refusals::Refusal;
use windows::area::Area;

// The side of a map of k levels.
pub fn side_of(k: u64) -> Result<usize, Refusal>
    ensures { MatchResult result (λ s. SideOf k s) (λ e. (max_k < k) × (e ≡ TooManyLevels k)) }
{
    HeightMap::side(k).ok_or(Refusal::TooManyLevels(k))
}

// Whether all are heights: a bit past the sixteenth that one of them has is in all of them together.
fn all_heights(numbers: &[i32]) -> bool
    ensures { IsTrue result ↔ ((i : ℕ) → i < length numbers.now → Height (line numbers.now i)) }
{
    let mut bits: i32 = 0;
    for number in numbers {
        bits |= *number;
    }
    HeightMap::is_height(bits)
}

// The first place of a map that is missing, too many or no height.
fn find_wrong(heights: &[i32], many: usize) -> Option<usize>
    ensures { result ≡ first_wrong many 0 heights.now }
{
    for (i, height) in heights.iter().enumerate() {
        if i == many || !HeightMap::is_height(*height) {
            return Some(i);
        }
    }
    if heights.len() < many {
        Some(heights.len())
    } else {
        None
    }
}

// The numbers of a map: as many as it has places, all of them heights. They are looked at one by one only where something is wrong.
fn check_map(heights: &[i32], many: usize) -> Result<(), Refusal>
    ensures { MatchResult result (λ _. WholeMap many heights.now) (λ e. (at : ℕ) × (first_wrong many 0 heights.now ≡ Some at) × (e ≡ WrongNumber at)) }
{
    if heights.len() == many && all_heights(heights) {
        return Ok(());
    }
    match find_wrong(heights, many) {
        Some(at) => Err(Refusal::WrongNumber(at as u64)),
        None => Ok(()),
    }
}

// A list of so many numbers that should have so many.
pub fn check_length(length: usize, many: usize) -> Result<(), Refusal>
    ensures { MatchResult result (λ _. length ≡ many) (λ e. (length ≢ many) × (e ≡ WrongNumber (min length many))) }
{
    if length == many {
        Ok(())
    } else {
        Err(Refusal::WrongNumber(length.min(many) as u64))
    }
}

// What `build` asks: the map.
pub fn check_build<'a>(k: u64, heights: &'a [i32], room: usize) -> Result<HeightMap<'a>, Refusal>
    ensures { MatchResult result (λ m. (build_refusal k heights.now room ≡ None) × CanBuild k heights.now room m) (λ e. build_refusal k heights.now room ≡ Some e) }
{
    let side = side_of(k)?;
    check_map(heights, side * side)?;
    if room != side * side {
        return Err(Refusal::WrongRoom(room as u64));
    }
    let size = Size::square(side);
    Ok(HeightMap { size, heights })
}

// Whether a stretch of places, from one on, lies within a side.
fn on_side(side: u64, from: u64, many: u64) -> bool
    ensures { result ≡ is_on_side side from many }
{
    from < side && many <= side - from
}

// Whether a window lies on a map of that side.
fn on_map(side: u64, x: u64, y: u64, wide: u64, high: u64) -> bool
    ensures { result ≡ (is_on_side side x wide && is_on_side side y high) }
{
    on_side(side, x, wide) && on_side(side, y, high)
}

// What `window` asks of a tower of so many numbers: the side of the level.
pub fn check_window(
    k: u64,
    tower: usize,
    level: u64,
    x: u64,
    y: u64,
    wide: u64,
    high: u64,
    room: usize,
) -> Result<usize, Refusal>
    ensures { MatchResult result (λ s. (window_refusal k tower level x y wide high room ≡ None) × CanShow k tower level x y wide high room s) (λ e. window_refusal k tower level x y wide high room ≡ Some e) }
{
    let whole = side_of(k)?;
    check_length(tower, whole * whole)?;
    if level > k {
        return Err(Refusal::NoSuchLevel);
    }
    let side = side_of(k - level)?;
    if !on_map(side as u64, x, y, wide, high) {
        return Err(Refusal::OffTheMap);
    }
    if room as u64 == wide * high {
        Ok(side)
    } else {
        Err(Refusal::WrongRoom(room as u64))
    }
}

// The same of a tower that is lent: the places of the level that are to be shown.
pub fn check_area<'a>(
    k: u64,
    tower: &'a [i32],
    level: u64,
    x: u64,
    y: u64,
    wide: u64,
    high: u64,
    room: usize,
) -> Result<Area<'a>, Refusal>
    ensures { MatchResult result (λ a. (window_refusal k (length tower.now) level x y wide high room ≡ None) × CanShowArea k tower.now level x y wide high room a) (λ e. window_refusal k (length tower.now) level x y wide high room ≡ Some e) }
{
    let side = check_window(k, tower.len(), level, x, y, wide, high, room)?;
    let size = Size::square(side);
    Ok(Area {
        tower,
        size,
        x: x as usize,
        y: y as usize,
        wide: wide as usize,
        high: high as usize,
    })
}

// What `change` asks: the place.
pub fn check_change(k: u64, tower: usize, x: u64, y: u64, height: u64) -> Result<Place, Refusal>
    ensures { MatchResult result (λ p. (change_refusal k tower x y height ≡ None) × CanChange k tower x y height p) (λ e. change_refusal k tower x y height ≡ Some e) }
{
    let side = side_of(k)?;
    check_length(tower, side * side)?;
    if x >= side as u64 || y >= side as u64 {
        return Err(Refusal::OffTheMap);
    }
    if height > HeightMap::MAX_HEIGHT as u64 {
        return Err(Refusal::TooHigh);
    }
    let size = Size::square(side);
    Ok(Place {
        size,
        x: x as usize,
        y: y as usize,
    })
}
