// A map and its tower: whether the calls show, change and part the tower as the map says.
use crate::map::{Map, Window, height};
use chance::Random;
use parts::assembly::assemble;
use parts::{coarse, detail, join};
use refusals::Refusal;
use std::alloc::{AllocError, Global};
use tower::{Done, build, change, window};

// Which windows of a level are tried.
#[derive(Clone, Copy)]
enum Shape {
    Whole,
    LastPlace,
    LastRow,
    LastColumn,
    Empty,
    Drawn,
}

static SHAPES: &[Shape] = &[
    Shape::Whole,
    Shape::LastPlace,
    Shape::LastRow,
    Shape::LastColumn,
    Shape::Empty,
    Shape::Drawn,
    Shape::Drawn,
    Shape::Drawn,
];

impl Shape {
    // A window of a side; its place is drawn for each shape.
    fn window(self, random: &mut Random, side: u64) -> Window {
        let last = side.saturating_sub(1);
        let x = random.below(side);
        let y = random.below(side);
        let (x, y, wide, high) = match self {
            Shape::Whole => (0, 0, side, side),
            Shape::LastPlace => (last, last, 1, 1),
            Shape::LastRow => (0, last, side, 1),
            Shape::LastColumn => (last, 0, 1, side),
            Shape::Empty => (x, y, 0, 1),
            Shape::Drawn => (x, y, extent(random, side, x), extent(random, side, y)),
        };
        Window { x, y, wide, high }
    }
}

// How many places from one on.
fn extent(random: &mut Random, side: u64, from: u64) -> u64 {
    random.below(side.saturating_sub(from)).wrapping_add(1)
}

// How many numbers of two lists differ, and how many only one of them has.
fn differ(a: &[i32], b: &[i32]) -> usize {
    let others = a.iter().zip(b).filter(|(x, y)| x != y).count();
    others.saturating_add(a.len().abs_diff(b.len()))
}

// A map of k levels, and what should be its tower. The random numbers are no part of it: one sequence runs through all cases.
#[derive(Drop)]
pub struct Case {
    pub alloc: Global,
    pub k: u64,
    pub map: Map,
    pub tower: Vec<i32>,
}

impl Case {
    // A map at random, and the room of its tower.
    pub fn random(alloc: Global, random: &mut Random, k: u64) -> Result<Case, AllocError> {
        let map = Map::random(alloc, random, k)?;
        let tower = vec![in alloc; 0; map.heights.len()]?;
        Ok(Case {
            alloc,
            k,
            map,
            tower,
        })
    }

    pub fn build(&mut self) -> Result<Done, Refusal> {
        build(self.k, &self.map.heights, &mut self.tower)
    }

    // Whether the tower is what the map's tower is, built anew. What does not agree is counted and is no error, here and below.
    fn is_right(&self) -> Result<bool, AllocError> {
        let mut anew = vec![in self.alloc; 0; self.map.heights.len()]?;
        let built = build(self.k, &self.map.heights, &mut anew);
        Ok(built == Ok(Done::Built) && anew == self.tower)
    }

    // Whether a window of the tower shows what the copy has there.
    fn window_agrees(&self, level: u64, copy: &Map, part: Window) -> Result<bool, AllocError> {
        let Window { x, y, wide, high } = part;
        let mut room = vec![in self.alloc; 7; (wide.wrapping_mul(high) % 65536) as usize]?;
        let shown = window(self.k, &self.tower, level, x, y, wide, high, &mut room);
        Ok(shown == Ok(Done::Shown) && room == copy.window(self.alloc, part)?)
    }

    // How many windows of all levels agree.
    pub fn windows_agree(&self, random: &mut Random) -> Result<u64, AllocError> {
        let mut count: u64 = 0;
        for level in 0..=self.k {
            let copy = self.map.at_level(self.alloc, level)?;
            for shape in SHAPES {
                let part = shape.window(random, copy.side);
                let agrees = self.window_agrees(level, &copy, part)?;
                count = count.wrapping_add(u64::from(agrees));
            }
        }
        Ok(count)
    }

    // How many windows of all levels are tried.
    fn windows(&self) -> u64 {
        self.k.wrapping_add(1).wrapping_mul(SHAPES.len() as u64)
    }

    // One change at random: whether few numbers of the tower are others then, and it is the changed map's.
    pub fn change_agrees(&mut self, random: &mut Random) -> Result<bool, AllocError> {
        let x = random.below(self.map.side);
        let y = random.below(self.map.side);
        let height = height(random);
        let before = self.tower.clone()?;
        if change(self.k, &mut self.tower, x, y, u64::from(height)) != Ok(Done::Changed) {
            return Ok(false);
        }
        self.map.set(x, y, height);
        let others = differ(&before, &self.tower) as u64;
        Ok(others <= self.k.saturating_mul(2).saturating_add(1) && self.is_right()?)
    }

    // The coarse part for a level beside the tower of the copy at that level, and its windows beside copies of that.
    fn part_agrees(&self, random: &mut Random, level: u64) -> Result<bool, AllocError> {
        let part = Case {
            alloc: self.alloc,
            k: self.k.saturating_sub(level),
            map: self.map.at_level(self.alloc, level)?,
            tower: coarse(self.k, &self.tower, level).to_vec(self.alloc)?,
        };
        let count = part.windows_agree(random)?;
        Ok(part.is_right()? && count == part.windows())
    }

    // The tower put together level by level: whether each step is the coarse part for the next level.
    fn steps_agree(&self) -> Result<bool, AllocError> {
        let mut grown = coarse(self.k, &self.tower, self.k).to_vec(self.alloc)?;
        for level in (0..self.k).rev() {
            let part = coarse(self.k, &self.tower, level);
            let finer = detail(self.k, &self.tower, level);
            let mut room = vec![in self.alloc; 0; part.len()]?;
            let joined = join(self.k.saturating_sub(level), &grown, finer, &mut room);
            if joined.is_err() || room.as_slice() != part {
                return Ok(false);
            }
            grown = room;
        }
        Ok(grown == self.tower)
    }

    // The tower from all its parts at once; one part less is refused and nothing written.
    fn whole_agrees(&self) -> Result<bool, AllocError> {
        let mut list = Vec::new(self.alloc);
        list.push(coarse(self.k, &self.tower, self.k))?;
        for level in (0..self.k).rev() {
            list.push(detail(self.k, &self.tower, level))?;
        }
        let mut room = vec![in self.alloc; 7; self.tower.len()]?;
        let before = room.clone()?;
        let fewer = list.as_slice().get(1..).unwrap_or(&[]);
        if assemble(self.k, fewer, &mut room).is_ok() || room != before {
            return Ok(false);
        }
        Ok(assemble(self.k, &list, &mut room).is_ok() && room == self.tower)
    }

    // How many parts of the tower agree, if it can be put together again.
    pub fn parts_agree(&self, random: &mut Random) -> Result<u64, AllocError> {
        let mut count: u64 = 0;
        for level in 0..=self.k {
            let agrees = self.part_agrees(random, level)?;
            count = count.wrapping_add(u64::from(agrees));
        }
        if self.steps_agree()? && self.whole_agrees()? {
            Ok(count)
        } else {
            Ok(0)
        }
    }
}
