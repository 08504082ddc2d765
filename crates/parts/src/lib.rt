// Parts of a tower of 2^k by 2^k places: handed back without a copy, and put together again.
#![tactic(auto)]

ghost use Rattle.std.specs.Prelude.{◌≡◌, ◌<◌, length, Some, None, MatchResult};
ghost use Rattle.refusals.specs.declared.Refusal.TheVariants.{TooManyLevels};
ghost use Rattle.maps.specs.Limits.{max_k};
ghost use Rattle.tower.specs.Calls.{Answered};
ghost use Rattle.parts.specs.Known.{CanDetail, CanHand, CanJoin, PlacesOf};
ghost use Rattle.parts.specs.Laws.{SameWindows, TogetherAgain};
ghost use Rattle.parts.specs.Parts.{CoarsePart, coarse_refusal, detail_of, detail_refusal, Handed, join_refusal, Joined};

pub mod assembly;

use refusals::Refusal;
use tower::checks::{check_length, side_of};

// How many places a map of k levels has.
fn places_of(k: u64) -> Result<usize, Refusal>
    ensures { MatchResult result (λ n. PlacesOf k n) (λ e. (max_k < k) × (e ≡ TooManyLevels k)) }
{
    let side = side_of(k)?;
    Ok(side * side)
}

// What `coarse` asks: how many numbers the part has.
pub fn check_coarse(k: u64, tower: usize, level: u64) -> Result<usize, Refusal>
    ensures { MatchResult result (λ n. (coarse_refusal k tower level ≡ None) × CanHand k tower level n) (λ e. coarse_refusal k tower level ≡ Some e) }
{
    let whole = places_of(k)?;
    check_length(tower, whole)?;
    if level > k {
        return Err(Refusal::NoSuchLevel);
    }
    let part = places_of(k - level)?;
    Ok(part)
}

// The coarse part for a level: the first numbers of the tower, which are the tower of the map at that level. A part of none
// where there is no such level, of which `check_coarse` tells why: this call cannot fail.
pub fn coarse<'a>(k: u64, tower: &'a [i32], level: u64) -> &'a [i32]
    ensures { Handed (coarse_refusal k (length tower.now) level) result.now (CoarsePart k tower.now level result.now) }
{
    match check_coarse(k, tower.len(), level) {
        Ok(part) => &tower[0..part],
        Err(_) => &tower[0..0],
    }
}

// What `detail` asks: how many numbers stand before the part, which are the coarse part for the next level.
pub fn check_detail(k: u64, tower: usize, level: u64) -> Result<usize, Refusal>
    ensures { MatchResult result (λ n. (detail_refusal k tower level ≡ None) × CanDetail k tower level n) (λ e. detail_refusal k tower level ≡ Some e) }
{
    check_coarse(k, tower, level.saturating_add(1))
}

// The detail part for a level: the numbers that lead to it from the next coarser one. A part of none where there is none, of
// which `check_detail` tells why.
pub fn detail<'a>(k: u64, tower: &'a [i32], level: u64) -> &'a [i32]
    ensures { Handed (detail_refusal k (length tower.now) level) result.now (result.now ≡ detail_of k tower.now level) }
{
    match check_detail(k, tower.len(), level) {
        Ok(before) => &tower[before..4 * before],
        Err(_) => &tower[0..0],
    }
}

// What `join` asks: how many numbers the coarse part has.
fn check_join(k: u64, coarse: usize, detail: usize, room: usize) -> Result<usize, Refusal>
    ensures { MatchResult result (λ n. (join_refusal k coarse detail room ≡ None) × CanJoin k coarse detail room n) (λ e. join_refusal k coarse detail room ≡ Some e) }
{
    let whole = places_of(k)?;
    if k == 0 {
        return Err(Refusal::NoSuchLevel);
    }
    let part = places_of(k - 1)?;
    check_length(coarse, part)?;
    if detail != whole - part {
        return Err(Refusal::WrongNumber((part + detail.min(whole - part)) as u64));
    }
    if room == whole {
        Ok(part)
    } else {
        Err(Refusal::WrongRoom(room as u64))
    }
}

// The tower of k levels from its coarse part, of one level less, and the detail that leads on from there. Two parts are named
// here and not listed, so that each is told apart where it is wrong.
pub fn join(k: u64, coarse: &[i32], detail: &[i32], room: &mut [i32]) -> Result<(), Refusal>
    ensures { Answered (join_refusal k (length coarse.now) (length detail.now) (length room.old)) result tt room.old room.new (Joined k coarse.now detail.now room.new) }
{
    let part = check_join(k, coarse.len(), detail.len(), room.len())?;
    room[0..part].copy_from_slice(coarse);
    room[part..4 * part].copy_from_slice(detail);
    Ok(())
}

// A tower taken apart and put together again is the same.
pub fn together_again()
    ensures { TogetherAgain }
{}

// A window of a coarse part is one of the whole, so many levels on.
pub fn same_windows()
    ensures { SameWindows }
{}
