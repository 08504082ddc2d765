// The rows of a map as they are given, and what is refused of them.
use crate::halving::{Grid, side_of};
use crate::reading::{numbers_of, row_number_of};
use crate::refused::{Refused, Stopped};
use std::alloc::{AllocError, Global};

#[derive(Drop)]
pub struct Rows {
    pub k: u64,
    numbers: Vec<Vec<i64>>,
    unreadable: Option<u64>,
}

impl Rows {
    pub fn new(alloc: Global, k: u64) -> Rows {
        Rows {
            k,
            numbers: Vec::new(alloc),
            unreadable: None,
        }
    }

    // One row more, which stands in a line.
    pub fn add(&mut self, alloc: Global, words: &[&[u8]], line: u64) -> Result<(), AllocError> {
        match numbers_of(alloc, words, row_number_of)? {
            Some(row) => self.numbers.push(row)?,
            None => self.unreadable = self.unreadable.or(Some(line)),
        }
        Ok(())
    }

    // The first place that is missing, too many or no height.
    fn wrong_place(&self, side: usize) -> Option<usize> {
        for (y, row) in self.numbers.iter().take(side).enumerate() {
            if let Some(x) = wrong_in_row(row, side) {
                return Some(y.saturating_mul(side).saturating_add(x));
            }
        }
        let rows = wrong_count(self.numbers.len(), side)?;
        Some(rows.saturating_mul(side))
    }

    fn check(&self, side: usize) -> Result<(), Refused> {
        if self.k > 7 {
            return Err(Refused::TooManyLevels(self.k));
        }
        if let Some(line) = self.unreadable {
            return Err(Refused::Unreadable(line));
        }
        match self.wrong_place(side) {
            Some(place) => Err(Refused::WrongNumber(place as u64)),
            None => Ok(()),
        }
    }

    // The map of the rows.
    pub fn map(&self, alloc: Global) -> Result<Grid, Stopped> {
        let side = side_of(self.k, 0) as usize;
        self.check(side)?;
        let mut cells = Vec::new(alloc);
        for row in self.numbers.iter() {
            cells.extend_from_slice(row)?;
        }
        Ok(Grid {
            wide: side,
            high: side,
            cells,
        })
    }
}

fn is_height(number: i64) -> bool {
    (0..=65535).contains(&number)
}

// Where a list that should have so many is too short or too long.
fn wrong_count(many: usize, wanted: usize) -> Option<usize> {
    (many != wanted).then_some(many.min(wanted))
}

// The first place of a row that is missing, too many or no height.
fn wrong_in_row(row: &[i64], side: usize) -> Option<usize> {
    row.iter()
        .take(side)
        .position(|number| !is_height(*number))
        .or_else(|| wrong_count(row.len(), side))
}
