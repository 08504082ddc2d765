// A map that is read, and its tower shown.
use crate::stop::Stop;
use messages::command::Command;
use parts::{check_coarse, coarse};
use refusals::Refusal;
use std::alloc::{AllocError, Global};
use std::io;
use tower::{build, change, window};

// A map whose rows are being read.
#[derive(Drop)]
pub struct Rows {
    k: u64,
    heights: Vec<i32>,
}

impl Rows {
    pub fn new(alloc: Global, k: u64) -> Rows {
        Rows {
            k,
            heights: Vec::new(alloc),
        }
    }

    // The heights of a row, up to a word that is no number.
    pub fn add(&mut self, line: &str, at: u64) -> Result<(), Stop> {
        for word in line.split_whitespace() {
            let height = word.parse::<i32>().map_err(|_| Refusal::Unreadable(at))?;
            self.heights.push(height).map_err(AllocError::from)?;
        }
        Ok(())
    }
}

// The tower of a map of k levels, and the level of its windows.
#[derive(Drop)]
pub struct Shown {
    k: u64,
    level: u64,
    tower: Vec<i32>,
}

impl Shown {
    pub fn of(alloc: Global, rows: Rows) -> Result<Shown, Stop> {
        let Rows { k, heights } = rows;
        let mut tower = vec![in alloc; 0; heights.len()]?;
        build(k, &heights, &mut tower)?;
        Ok(Shown { k, level: 0, tower })
    }

    fn go_to(&mut self, level: u64) -> Result<(), Refusal> {
        if level > self.k {
            return Err(Refusal::NoSuchLevel);
        }
        self.level = level;
        Ok(())
    }

    // A window printed row by row. Its four numbers go from the command to the call as they are, so a struct would be no plainer.
    fn window(&self, rt: &HostRuntime, x: u64, y: u64, wide: u64, high: u64) -> Result<(), Stop> {
        let places = wide.saturating_mul(high).min(16384);
        let mut room = vec![in rt.alloc(); 0; places as usize]?;
        window(self.k, &self.tower, self.level, x, y, wide, high, &mut room)?;
        // Not by `chunks`: rows of no places are lines too.
        for v in 0..high {
            let from = v.saturating_mul(wide) as usize;
            if let Some(row) = room
                .as_slice()
                .get(from..from.saturating_add(wide as usize))
            {
                print_numbers(rt, row)?;
            }
        }
        Ok(())
    }

    fn coarse(&self, rt: &HostRuntime, level: u64) -> Result<(), Stop> {
        check_coarse(self.k, self.tower.len(), level)?;
        print_numbers(rt, coarse(self.k, &self.tower, level))?;
        Ok(())
    }

    // A command other than for a map.
    pub fn obey(&mut self, rt: &HostRuntime, command: Command) -> Result<(), Stop> {
        match command {
            Command::Map { .. } => {}
            Command::Level { level } => self.go_to(level)?,
            Command::Window { x, y, wide, high } => self.window(rt, x, y, wide, high)?,
            Command::Set { x, y, height } => {
                change(self.k, &mut self.tower, x, y, height)?;
            }
            Command::Tower => print_numbers(rt, &self.tower)?,
            Command::Coarse { level } => self.coarse(rt, level)?,
        }
        Ok(())
    }
}

// The numbers in one line, straight to the output: `messages` would write them to a text first.
fn print_numbers(rt: &HostRuntime, numbers: &[i32]) -> io::Result<()> {
    if let Some((first, rest)) = numbers.split_first() {
        print!(rt; "{first}")?;
        for number in rest {
            print!(rt; " {number}")?;
        }
    }
    println!(rt)
}
