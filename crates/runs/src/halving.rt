// Maps halved by rows and then by columns, and their towers, made anew each time. `trials` halves place by place: two
// references, written apart on purpose.
use std::alloc::{AllocError, Global};

// Numbers row by row.
#[derive(Drop)]
pub struct Grid {
    pub wide: usize,
    pub high: usize,
    pub cells: Vec<i64>,
}

impl Grid {
    fn empty(alloc: Global, wide: usize, high: usize) -> Grid {
        Grid {
            wide,
            high,
            cells: Vec::new(alloc),
        }
    }

    fn index(&self, x: usize, y: usize) -> usize {
        y.saturating_mul(self.wide).saturating_add(x)
    }

    // The number at a place, and 0 beyond.
    pub fn at(&self, x: usize, y: usize) -> i64 {
        self.cells.get(self.index(x, y)).copied().unwrap_or(0)
    }

    // So many numbers of a row, from a place on, and none beyond.
    pub fn row(&self, x: usize, y: usize, wide: usize) -> &[i64] {
        let from = self.index(x, y);
        self.cells
            .as_slice()
            .get(from..from.saturating_add(wide))
            .unwrap_or(&[])
    }

    pub fn set(&mut self, x: usize, y: usize, height: i64) {
        let i = self.index(x, y);
        if i < self.cells.len() {
            self.cells[i] = height;
        }
    }
}

// Means and differences of pairs, row by row.
#[derive(Drop)]
struct Halved {
    means: Grid,
    differences: Vec<i64>,
}

impl Halved {
    // So many pairs in a row, and so many rows; each pair is asked for by its place.
    fn of<F: Fn(usize, usize) -> (i64, i64)>(
        alloc: Global,
        wide: usize,
        high: usize,
        pair: F,
    ) -> Result<Halved, AllocError>
        requires { F.IsAlwaysCallable pair }
    {
        let mut halved = Halved {
            means: Grid::empty(alloc, wide, high),
            differences: Vec::new(alloc),
        };
        for y in 0..high {
            for x in 0..wide {
                let (first, second) = pair(x, y);
                halved.add(first, second)?;
            }
        }
        Ok(halved)
    }

    // One pair more: its mean, by a division that rounds down, and the first less the second.
    fn add(&mut self, first: i64, second: i64) -> Result<(), AllocError> {
        let mean = first.wrapping_add(second).div_euclid(2);
        self.means.cells.push(mean)?;
        self.differences.push(first.wrapping_sub(second))?;
        Ok(())
    }
}

// The pairs beside each other.
fn across(alloc: Global, grid: &Grid) -> Result<Halved, AllocError> {
    Halved::of(alloc, grid.wide / 2, grid.high, |x, y| {
        let left = x.saturating_mul(2);
        (grid.at(left, y), grid.at(left.saturating_add(1), y))
    })
}

// The pairs one below the other.
fn down(alloc: Global, grid: &Grid) -> Result<Halved, AllocError> {
    Halved::of(alloc, grid.wide, grid.high / 2, |x, y| {
        let upper = y.saturating_mul(2);
        (grid.at(x, upper), grid.at(x, upper.saturating_add(1)))
    })
}

// The map at a level.
pub fn level_of(alloc: Global, map: &Grid, level: u64) -> Result<Grid, AllocError> {
    let mut copy = Grid {
        wide: map.wide,
        high: map.high,
        cells: map.cells.clone()?,
    };
    for _ in 0..level {
        let rows = across(alloc, &copy)?;
        copy = down(alloc, &rows.means)?.means;
    }
    Ok(copy)
}

// The differences that lead from the level above to this one: those down, and then those across.
fn add_differences(alloc: Global, finer: &Grid, tower: &mut Vec<i64>) -> Result<(), AllocError> {
    let rows = across(alloc, finer)?;
    let columns = down(alloc, &rows.means)?;
    tower.extend_from_slice(&columns.differences)?;
    tower.extend_from_slice(&rows.differences)?;
    Ok(())
}

// The tower of a map of k levels: the coarsest level, and then what leads to each finer one.
pub fn tower_of(alloc: Global, map: &Grid, k: u64) -> Result<Vec<i64>, AllocError> {
    let mut tower = level_of(alloc, map, k)?.cells;
    for level in (0..k).rev() {
        let finer = level_of(alloc, map, level)?;
        add_differences(alloc, &finer, &mut tower)?;
    }
    Ok(tower)
}

// The side of a map of k levels, at most 7, at a level.
pub fn side_of(k: u64, level: u64) -> u64 {
    1 << k.min(7).saturating_sub(level)
}
