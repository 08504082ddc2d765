// What a text should answer, by a map that is kept as it is and halved anew for each answer. It reads, checks and refuses by
// itself, so that an error of the product is none of the reference.
use crate::given::Rows;
use crate::halving::{Grid, level_of, side_of, tower_of};
use crate::reading::{is_row, number_of, numbers_of, words_of};
use crate::refused::{Refused, Stopped};
use crate::tally::Tally;
use messages::command::Command;
use std::alloc::{AllocError, Global};

// A part of a map at a level: what a command for a window names, which has no type of its own there. `trials` has another, since
// the two references share nothing.
#[derive(Clone, Copy)]
struct Part {
    x: u64,
    y: u64,
    wide: u64,
    high: u64,
}

// What words ask for, if they can be read; that they cannot is no error of the call.
fn command_of(alloc: Global, words: &[&[u8]]) -> Result<Option<Command>, AllocError> {
    let Some((name, rest)) = words.split_first() else {
        return Ok(None);
    };
    let Some(numbers) = numbers_of(alloc, rest, number_of)? else {
        return Ok(None);
    };
    Ok(command_named(name, &numbers))
}

fn command_named(name: &[u8], numbers: &[u64]) -> Option<Command> {
    match (name, numbers) {
        (b"map", &[k]) => Some(Command::Map { k }),
        (b"level", &[level]) => Some(Command::Level { level }),
        (b"window", &[x, y, wide, high]) => Some(Command::Window { x, y, wide, high }),
        (b"set", &[x, y, height]) => Some(Command::Set { x, y, height }),
        (b"tower", []) => Some(Command::Tower),
        (b"coarse", &[level]) => Some(Command::Coarse { level }),
        _ => None,
    }
}

// Numbers in one line, parted by one blank.
fn write_line(out: &mut String, numbers: &[i64]) -> Result<(), AllocError> {
    if let Some((first, rest)) = numbers.split_first() {
        write!(out, "{first}")?;
        for number in rest {
            write!(out, " {number}")?;
        }
    }
    write!(out, "\n")
}

// Whether so many places from one on are on a side, the first in any case.
fn on_side(from: u64, many: u64, side: u64) -> bool {
    from < side && u128::from(from).saturating_add(u128::from(many)) <= u128::from(side)
}

// The map that was taken last, and the level of its windows.
#[derive(Drop)]
struct Shown {
    k: u64,
    level: u64,
    map: Grid,
}

impl Shown {
    fn go_to(&mut self, level: u64) -> Result<(), Refused> {
        if level > self.k {
            return Err(Refused::NoSuchLevel);
        }
        self.level = level;
        Ok(())
    }

    // A line for each row of the part.
    fn window(&self, alloc: Global, part: Part, out: &mut String) -> Result<(), Stopped> {
        let side = side_of(self.k, self.level);
        if !on_side(part.x, part.wide, side) || !on_side(part.y, part.high, side) {
            return Err(Refused::OffTheMap.into());
        }
        let copy = level_of(alloc, &self.map, self.level)?;
        for v in 0..part.high {
            let y = part.y.saturating_add(v);
            write_line(
                out,
                copy.row(part.x as usize, y as usize, part.wide as usize),
            )?;
        }
        Ok(())
    }

    fn set(&mut self, x: u64, y: u64, height: u64) -> Result<(), Refused> {
        let side = side_of(self.k, 0);
        if x >= side || y >= side {
            return Err(Refused::OffTheMap);
        }
        if height > 65535 {
            return Err(Refused::TooHigh);
        }
        self.map.set(x as usize, y as usize, height as i64);
        Ok(())
    }

    // The first numbers of the tower, as many as a level has places.
    fn coarse(&self, alloc: Global, level: u64, out: &mut String) -> Result<(), Stopped> {
        if level > self.k {
            return Err(Refused::NoSuchLevel.into());
        }
        let tower = tower_of(alloc, &self.map, self.k)?;
        let side = side_of(self.k, level) as usize;
        let part = tower.as_slice().get(0..side.saturating_mul(side));
        write_line(out, part.unwrap_or(&[]))?;
        Ok(())
    }

    fn obey(&mut self, alloc: Global, command: Command, out: &mut String) -> Result<(), Stopped> {
        match command {
            Command::Map { .. } => {}
            Command::Level { level } => self.go_to(level)?,
            Command::Window { x, y, wide, high } => {
                self.window(alloc, Part { x, y, wide, high }, out)?;
            }
            Command::Set { x, y, height } => self.set(x, y, height)?,
            Command::Tower => self.coarse(alloc, 0, out)?,
            Command::Coarse { level } => self.coarse(alloc, level, out)?,
        }
        Ok(())
    }
}

// What a run has come to, and what was answered so far.
#[derive(Drop)]
struct Reference<'a> {
    alloc: Global,
    shown: Option<Shown>,
    rows: Option<Rows>,
    out: String,
    tally: &'a mut Tally,
}

impl Reference<'_> {
    // What is refused is written, and stops no more than its own step.
    fn settle(&mut self, step: Result<(), Stopped>) -> Result<(), AllocError> {
        match step {
            Ok(()) => Ok(()),
            Err(Stopped::NoMemory(error)) => Err(error),
            Err(Stopped::Refused(refused)) => {
                self.tally.refused(refused);
                write!(self.out, "{refused}\n")
            }
        }
    }

    fn take_map(&mut self) -> Result<(), Stopped> {
        let Some(rows) = self.rows.take() else {
            return Ok(());
        };
        self.shown = Some(Shown {
            k: rows.k,
            level: 0,
            map: rows.map(self.alloc)?,
        });
        self.tally.maps = self.tally.maps.saturating_add(1);
        Ok(())
    }

    // The rows have ended: their map is taken or refused.
    fn end_rows(&mut self) -> Result<(), AllocError> {
        let taken = self.take_map();
        self.settle(taken)
    }

    // A command other than for a map; none could be read where there is none.
    fn answer(&mut self, line: u64, command: Option<Command>) -> Result<(), Stopped> {
        let (Some(command), Some(shown)) = (command, &mut self.shown) else {
            return Err(Refused::Unreadable(line).into());
        };
        shown.obey(self.alloc, command, &mut self.out)?;
        self.tally.answered(command);
        Ok(())
    }

    fn take_line(&mut self, line: u64, words: &[&[u8]]) -> Result<(), AllocError> {
        if is_row(words) {
            if let Some(rows) = &mut self.rows {
                return rows.add(self.alloc, words, line);
            }
        }
        self.end_rows()?;
        if words.is_empty() {
            return Ok(());
        }
        match command_of(self.alloc, words)? {
            Some(Command::Map { k }) => {
                self.rows = Some(Rows::new(self.alloc, k));
                Ok(())
            }
            command => {
                let answered = self.answer(line, command);
                self.settle(answered)
            }
        }
    }
}

// The answers to a text; what was asked and answered is added to the tally.
pub fn expected(alloc: Global, text: &[u8], tally: &mut Tally) -> Result<String, AllocError> {
    let mut reference = Reference {
        alloc,
        shown: None,
        rows: None,
        out: String::new(alloc),
        tally,
    };
    // A line keeps its end, which is no word; behind the last end there is a line only if there is something.
    for (line, bytes) in text.split_inclusive(|byte| *byte == b'\n').enumerate() {
        let words = words_of(alloc, bytes)?;
        reference.take_line(line as u64, &words)?;
        reference.tally.lines = reference.tally.lines.saturating_add(1);
    }
    reference.end_rows()?;
    Ok(reference.out)
}
