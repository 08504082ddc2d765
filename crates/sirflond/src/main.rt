// Reads a map and commands from standard input, a line each, and shows windows and towers.
#![tactic(auto)]

mod read;
mod shown;
mod stop;

use crate::read::{is_row, read_command};
use crate::shown::{Rows, Shown};
use crate::stop::Stop;
use messages::command::Command;
use refusals::Refusal;
use std::io::{BufRead, BufReader};

// The map that is shown, and the map whose rows are being read.
#[derive(Drop)]
struct Program<'a> {
    rt: &'a HostRuntime,
    shown: Option<Shown>,
    rows: Option<Rows>,
}

impl Program<'_> {
    // What is refused is printed, and the program goes on.
    fn settle(&self, stop: Stop) -> anyhow::Result<()> {
        match stop {
            Stop::Refused(refusal) => {
                println!(self.rt; "{refusal}")?;
                Ok(())
            }
            Stop::OutOfMemory(error) => Err(error.into()),
            Stop::Failed(error) => Err(error.into()),
        }
    }

    fn take_map(&mut self) -> Result<(), Stop> {
        if let Some(rows) = self.rows.take() {
            self.shown = Some(Shown::of(self.rt.alloc(), rows)?);
        }
        Ok(())
    }

    // The rows that were read, if any, become what is shown.
    fn end_rows(&mut self) -> anyhow::Result<()> {
        match self.take_map() {
            Ok(()) => Ok(()),
            Err(stop) => self.settle(stop),
        }
    }

    // A line that is no row of a map.
    fn ask(&mut self, line: &str, at: u64) -> Result<(), Stop> {
        match (read_command(line), &mut self.shown) {
            (Some(Command::Map { k }), _) => self.rows = Some(Rows::new(self.rt.alloc(), k)),
            (Some(command), Some(shown)) => shown.obey(self.rt, command)?,
            _ => return Err(Refusal::Unreadable(at).into()),
        }
        Ok(())
    }

    // One line: a row of a map, or a command, which ends the rows before it. Only where rows are read is it asked which.
    fn take_line(&mut self, line: &str, at: u64) -> anyhow::Result<()> {
        if let Some(rows) = &mut self.rows {
            if is_row(line) {
                return match rows.add(line, at) {
                    Ok(()) => Ok(()),
                    Err(stop) => self.settle(stop),
                };
            }
            self.end_rows()?;
        }
        if line.trim().is_empty() {
            return Ok(());
        }
        match self.ask(line, at) {
            Ok(()) => Ok(()),
            Err(stop) => self.settle(stop),
        }
    }
}

fn main(rt: HostRuntime) -> anyhow::Result<()> {
    let mut program = Program {
        rt: &rt,
        shown: None,
        rows: None,
    };
    let lines = BufReader::new(rt.alloc(), rt.stdin())?.lines(rt.alloc());
    for (at, line) in lines.enumerate() {
        program.take_line(line?.as_str(), at as u64)?;
    }
    program.end_rows()
}
