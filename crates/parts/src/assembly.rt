// A whole tower put together from all its parts in order: the top, and then the details, the coarsest first.
ghost use Rattle.std.specs.Prelude.{◌≡◌, ◌≤◌, length};
ghost use Rattle.maps.specs.Limits.{max_k};
ghost use Rattle.parts.specs.Parts.{assemble_refusal, Assembled, contents, joined, parts_wrong};
ghost use Rattle.tower.specs.Calls.{Answered};

use crate::places_of;
use refusals::Refusal;

// The first place of the tower that is missing in the parts, or too many. Where a part begins and ends is told by its number and
// not by those before it, which may be too long.
fn find_gap(k: u64, parts: &[&[i32]]) -> Option<usize>
    requires { k ≤ max_k }
    ensures { result ≡ parts_wrong k 0 (contents parts.now) }
{
    let mut begin: usize = 0;
    let mut end: usize = 1;
    for (j, part) in parts.iter().enumerate() {
        if j as u64 > k {
            return Some(begin);
        }
        let size = end - begin;
        if part.len() != size {
            return Some(begin + part.len().min(size));
        }
        begin = end;
        end = 4 * end;
    }
    if parts.len() as u64 <= k {
        Some(begin)
    } else {
        None
    }
}

// The parts, one after the other, into a room of as many numbers. The place where each begins is kept: the room cut off part by
// part would be lent out anew for each, which is no plainer.
fn put_all(parts: &[&[i32]], room: &mut [i32])
    requires { length (joined (contents parts.now)) ≡ length room.old }
    ensures { room.new ≡ joined (contents parts.now) }
{
    let mut at: usize = 0;
    for part in parts {
        let end = at + part.len();
        room[at..end].copy_from_slice(part);
        at = end;
    }
}

// The tower of k levels from all its parts in order: the top, and then the details, the coarsest first.
pub fn assemble(k: u64, parts: &[&[i32]], room: &mut [i32]) -> Result<(), Refusal>
    ensures { Answered (assemble_refusal k (contents parts.now) (length room.old)) result tt room.old room.new (Assembled k (contents parts.now) room.new) }
{
    let whole = places_of(k)?;
    if let Some(place) = find_gap(k, parts) {
        return Err(Refusal::WrongNumber(place as u64));
    }
    if room.len() != whole {
        return Err(Refusal::WrongRoom(room.len() as u64));
    }
    put_all(parts, room);
    Ok(())
}
