// Commands obeyed: each writes its answer.
ghost use Rattle.std.specs.Prelude.{◌≡◌, ◌≤◌, vec_len, OnOk};
ghost use Rattle.maps.specs.Limits.{max_k};
ghost use Rattle.tower.specs.Checks.{places};
ghost use Rattle.messages.specs.declared.command.Command.TheVariants.{Coarse, Level, Set, Tower, Window};
ghost use Rattle.viewer.specs.Shows.{Obeys, Tells};

use crate::Viewer;
use messages::command::Command;
use messages::write::{write_refusal, write_row, write_rows};
use parts::{check_coarse, coarse};
use refusals::Refusal;
use std::alloc::{AllocError, Global};

impl Viewer {
    // A viewer of the whole map.
    pub fn new(k: u64, tower: Vec<i32>) -> Viewer
        requires levels { k ≤ max_k }
        requires whole { vec_len tower ≡ places k }
        ensures { (result.k ≡ k) × ((result.level ≡ 0) × (result.tower ≡ tower)) }
    {
        Viewer { k, level: 0, tower }
    }

    // The level of the windows that follow.
    fn set_level(&mut self, level: u64, out: &mut String) -> Result<(), AllocError>
        ensures { OnOk result (Obeys self.old (Level level) self.new out.old out.new) }
    {
        if level > self.k {
            return write_refusal(out, Refusal::NoSuchLevel);
        }
        self.level = level;
        Ok(())
    }

    // A window, row by row. Its four numbers stay apart, as `tower` asks for them.
    fn show_window(
        &self,
        alloc: Global,
        x: u64,
        y: u64,
        wide: u64,
        high: u64,
        out: &mut String,
    ) -> Result<(), AllocError>
        ensures { OnOk result (Tells self.now (Window x y wide high) out.old out.new) }
    {
        let places = wide.saturating_mul(high).min(16384) as usize;
        let mut room = vec![in alloc; 0; places]?;
        match tower::window(self.k, &self.tower, self.level, x, y, wide, high, &mut room) {
            Ok(_) => write_rows(out, &room, wide as usize, high as usize),
            Err(refusal) => write_refusal(out, refusal),
        }
    }

    // One height set to another.
    fn set_height(
        &mut self,
        x: u64,
        y: u64,
        height: u64,
        out: &mut String,
    ) -> Result<(), AllocError>
        ensures { OnOk result (Obeys self.old (Set x y height) self.new out.old out.new) }
    {
        match tower::change(self.k, &mut self.tower, x, y, height) {
            Ok(_) => Ok(()),
            Err(refusal) => write_refusal(out, refusal),
        }
    }

    // The tower's numbers in one line.
    fn show_tower(&self, out: &mut String) -> Result<(), AllocError>
        ensures { OnOk result (Tells self.now Tower out.old out.new) }
    {
        write_row(out, &self.tower)
    }

    // The coarse part for a level in one line.
    fn show_coarse(&self, level: u64, out: &mut String) -> Result<(), AllocError>
        ensures { OnOk result (Tells self.now (Coarse level) out.old out.new) }
    {
        match check_coarse(self.k, self.tower.len(), level) {
            Ok(_) => write_row(out, coarse(self.k, &self.tower, level)),
            Err(refusal) => write_refusal(out, refusal),
        }
    }

    // A command, whose answer is written.
    pub fn obey(
        &mut self,
        alloc: Global,
        command: Command,
        out: &mut String,
    ) -> Result<(), AllocError>
        ensures { OnOk result (Obeys self.old command self.new out.old out.new) }
    {
        match command {
            Command::Map { .. } => Ok(()),
            Command::Level { level } => self.set_level(level, out),
            Command::Window { x, y, wide, high } => self.show_window(alloc, x, y, wide, high, out),
            Command::Set { x, y, height } => self.set_height(x, y, height, out),
            Command::Tower => self.show_tower(out),
            Command::Coarse { level } => self.show_coarse(level, out),
        }
    }
}
