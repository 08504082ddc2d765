// How often what came.
use crate::refused::Refused;
use messages::command::Command;
use std::fmt;

#[derive(Clone, Copy, Default)]
pub struct Tally {
    pub lines: u64,
    pub maps: u64,
    pub windows: u64,
    pub others: u64,
    pub too_many_levels: u64,
    pub wrong_numbers: u64,
    pub not_there: u64,
    pub unreadable: u64,
}

impl Tally {
    pub fn refused(&mut self, refused: Refused) {
        let count = match refused {
            Refused::TooManyLevels(_) => &mut self.too_many_levels,
            Refused::WrongNumber(_) => &mut self.wrong_numbers,
            Refused::NoSuchLevel | Refused::OffTheMap | Refused::TooHigh => &mut self.not_there,
            Refused::Unreadable(_) => &mut self.unreadable,
        };
        *count = count.saturating_add(1);
    }

    pub fn answered(&mut self, command: Command) {
        let count = match command {
            Command::Window { .. } => &mut self.windows,
            _ => &mut self.others,
        };
        *count = count.saturating_add(1);
    }
}

impl fmt::Display for Tally {
    fn fmt<W: fmt::Write>(&self, f: &mut fmt::Formatter<W>) -> fmt::Result {
        write!(f, "{} lines, {} maps taken\n", self.lines, self.maps)?;
        write!(
            f,
            "{} windows shown, {} other commands obeyed\n",
            self.windows, self.others
        )?;
        write!(
            f,
            "refused: {} by 1, {} by 2, {} by 4, {} by 5",
            self.too_many_levels, self.wrong_numbers, self.not_there, self.unreadable
        )
    }
}
