// Square maps, and their copies at each level, halved from the start.
use chance::Random;
use std::alloc::{AllocError, Global};

// A part of a map, from x across and y down.
#[derive(Clone, Copy)]
pub struct Window {
    pub x: u64,
    pub y: u64,
    pub wide: u64,
    pub high: u64,
}

// Heights row by row.
#[derive(Drop)]
pub struct Map {
    pub side: u64,
    pub heights: Vec<i32>,
}

// A height, often the least or the largest.
pub fn height(random: &mut Random) -> u16 {
    match random.below(4) {
        0 => 0,
        1 => u16::MAX,
        _ => (random.below(65536) & 65535) as u16,
    }
}

// The mean of two heights, by a division that rounds down.
fn mean(a: i32, b: i32) -> i32 {
    a.wrapping_add(b).div_euclid(2)
}

// Heights row by row, each asked for by its place.
fn row_by_row<F: FnMut(u64, u64) -> i32>(
    alloc: Global,
    wide: u64,
    high: u64,
    mut height_at: F,
) -> Result<Vec<i32>, AllocError>
    requires { F.IsAlwaysCallable height_at }
{
    let mut heights = Vec::new(alloc);
    for y in 0..high {
        for x in 0..wide {
            heights.push(height_at(x, y))?;
        }
    }
    Ok(heights)
}

impl Map {
    // A map of k levels, at most 7.
    pub fn random(alloc: Global, random: &mut Random, k: u64) -> Result<Map, AllocError> {
        let side = 1u64 << k.min(7);
        let heights = row_by_row(alloc, side, side, |_, _| i32::from(height(random)))?;
        Ok(Map { side, heights })
    }

    fn index(&self, x: u64, y: u64) -> usize {
        y.wrapping_mul(self.side).wrapping_add(x) as usize
    }

    // The height at a place, and 0 past the end.
    fn at(&self, x: u64, y: u64) -> i32 {
        self.heights.get(self.index(x, y)).copied().unwrap_or(0)
    }

    pub fn set(&mut self, x: u64, y: u64, height: u16) {
        let i = self.index(x, y);
        if i < self.heights.len() {
            self.heights[i] = i32::from(height);
        }
    }

    // The heights of a window.
    pub fn window(&self, alloc: Global, window: Window) -> Result<Vec<i32>, AllocError> {
        let Window { x, y, wide, high } = window;
        row_by_row(alloc, wide, high, |u, v| {
            self.at(x.wrapping_add(u), y.wrapping_add(v))
        })
    }

    // One place of the halved map. The reference in `runs` halves by rows and then by columns: two ways, written apart on purpose.
    fn halved_place(&self, x: u64, y: u64) -> i32 {
        let left = x.wrapping_mul(2);
        let top = y.wrapping_mul(2);
        let right = left.wrapping_add(1);
        let low = top.wrapping_add(1);
        let upper = mean(self.at(left, top), self.at(right, top));
        let lower = mean(self.at(left, low), self.at(right, low));
        mean(upper, lower)
    }

    fn halved(&self, alloc: Global) -> Result<Map, AllocError> {
        let side = self.side / 2;
        let heights = row_by_row(alloc, side, side, |x, y| self.halved_place(x, y))?;
        Ok(Map { side, heights })
    }

    // The map at a level.
    pub fn at_level(&self, alloc: Global, level: u64) -> Result<Map, AllocError> {
        let mut copy = Map {
            side: self.side,
            heights: self.heights.clone()?,
        };
        for _ in 0..level {
            copy = copy.halved(alloc)?;
        }
        Ok(copy)
    }
}
