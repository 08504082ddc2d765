// Texts of commands at random: most can be obeyed, and some of everything that cannot.
use crate::halving::side_of;
use crate::slips::{
    BAD_LINES, BAD_NAMES, BAD_WORDS, BEGINS, ENDS, FLAWS, Flaw, GAPS, LARGE, NO_HEIGHTS,
    ODD_HEIGHTS, Slip,
};
use chance::Random;
use std::alloc::{AllocError, Global};

// A text that is being written; k and level are of the last map that was written whole.
#[derive(Drop)]
pub struct Script {
    alloc: Global,
    random: Random,
    text: Vec<u8>,
    k: u64,
    level: u64,
}

impl Script {
    pub fn new(alloc: Global, seed: u64) -> Script {
        Script {
            alloc,
            random: Random::new(seed),
            text: Vec::new(alloc),
            k: 0,
            level: 0,
        }
    }

    fn put(&mut self, bytes: &[u8]) -> Result<(), AllocError> {
        self.text.extend_from_slice(bytes)
    }

    fn put_one_of(&mut self, list: &[&[u8]]) -> Result<(), AllocError> {
        match self.random.one_of(list) {
            Some(bytes) => self.put(bytes),
            None => Ok(()),
        }
    }

    // Mostly the plain one.
    fn put_mostly(&mut self, plain: &[u8], list: &[&[u8]]) -> Result<(), AllocError> {
        if self.random.one_in(9) {
            self.put_one_of(list)
        } else {
            self.put(plain)
        }
    }

    // A number, sometimes with zeros in front.
    fn put_number(&mut self, number: u64) -> Result<(), AllocError> {
        if self.random.one_in(30) {
            self.put(b"000")?;
        } else if self.random.one_in(100) {
            self.put(b"0000000000000000000000000")?;
        }
        let digits = format!(in self.alloc; "{number}")?;
        self.put(digits.as_bytes())
    }

    fn slip(&mut self) -> Option<Slip> {
        match self.random.below(60) {
            0 | 1 => Some(Slip::OtherName),
            2 => Some(Slip::WordFewer),
            3 => Some(Slip::WordMore),
            4 | 5 => Some(Slip::BadWord),
            _ => None,
        }
    }

    // A command with a slip, if there is one.
    fn command_with(
        &mut self,
        slip: Option<Slip>,
        name: &[u8],
        numbers: &[u64],
    ) -> Result<(), AllocError> {
        self.put_mostly(b"", BEGINS)?;
        match slip {
            Some(Slip::OtherName) => self.put_one_of(BAD_NAMES)?,
            _ => self.put(name)?,
        }
        let last = numbers.len().saturating_sub(1);
        for (i, number) in numbers.iter().enumerate() {
            self.put_mostly(b" ", GAPS)?;
            match slip {
                Some(Slip::WordFewer) if i == last => {}
                Some(Slip::BadWord) if i == last => self.put_one_of(BAD_WORDS)?,
                _ => self.put_number(*number)?,
            }
        }
        if let Some(Slip::WordMore) = slip {
            self.put(b" 1")?;
        }
        self.put_mostly(b"\n", ENDS)
    }

    fn command(&mut self, name: &[u8], numbers: &[u64]) -> Result<(), AllocError> {
        let slip = self.slip();
        self.command_with(slip, name, numbers)
    }

    fn large(&mut self) -> u64 {
        self.random.one_of(LARGE).unwrap_or(u64::MAX)
    }

    // A number mostly below a limit, often at its edge.
    fn near(&mut self, limit: u64) -> u64 {
        match self.random.below(30) {
            0 => limit,
            1 => self.large(),
            2 | 3 => limit.saturating_sub(1),
            4 | 5 => 0,
            _ => self.random.below(limit),
        }
    }

    // How many places from one on, mostly no more than there are.
    fn extent(&mut self, side: u64, from: u64) -> u64 {
        let rest = side.saturating_sub(from);
        match self.random.below(30) {
            0 => rest.saturating_add(1),
            1 => self.large(),
            2 => 0,
            3..=9 => rest,
            _ => self.random.below(rest).saturating_add(1),
        }
    }

    fn level(&mut self) -> Result<(), AllocError> {
        let level = self.near(self.k.saturating_add(1));
        if level <= self.k {
            self.level = level;
        }
        self.command(b"level", &[level])
    }

    fn window(&mut self) -> Result<(), AllocError> {
        let side = side_of(self.k, self.level);
        let x = self.near(side);
        let y = self.near(side);
        let wide = self.extent(side, x);
        let high = self.extent(side, y);
        self.command(b"window", &[x, y, wide, high])
    }

    fn set(&mut self) -> Result<(), AllocError> {
        let side = side_of(self.k, 0);
        let x = self.near(side);
        let y = self.near(side);
        let height = self.near(65536);
        self.command(b"set", &[x, y, height])
    }

    fn coarse(&mut self) -> Result<(), AllocError> {
        let level = self.near(self.k.saturating_add(1));
        self.command(b"coarse", &[level])
    }

    fn height(&mut self) -> Result<(), AllocError> {
        match self.random.below(3) {
            0 => self.put_one_of(ODD_HEIGHTS),
            _ => {
                let height = self.random.below(65536);
                self.put_number(height)
            }
        }
    }

    fn row(&mut self, side: u64, flaw: Option<Flaw>) -> Result<(), AllocError> {
        let more = self.random.below(3).saturating_add(1);
        let many = match flaw {
            Some(Flaw::Short) => side.saturating_sub(more),
            Some(Flaw::Long) => side.saturating_add(more),
            _ => side,
        };
        let odd = self.random.below(many);
        self.put_mostly(b"", BEGINS)?;
        for x in 0..many {
            match flaw {
                Some(Flaw::NoHeight) if x == odd => self.put_one_of(NO_HEIGHTS)?,
                Some(Flaw::BadWord) if x == odd => self.put_one_of(BAD_WORDS)?,
                _ => self.height()?,
            }
            self.put_mostly(b" ", GAPS)?;
        }
        self.put_mostly(b"\n", ENDS)
    }

    // A flaw once in so many times.
    fn flaw(&mut self, seldom: u64) -> Option<Flaw> {
        if self.random.one_in(seldom) {
            self.random.one_of(FLAWS)
        } else {
            None
        }
    }

    fn some_k(&mut self) -> u64 {
        match self.random.below(400) {
            0..=39 => 0,
            40..=119 => 1,
            120..=219 => 2,
            220..=319 => 3,
            320..=377 => 4,
            378..=395 => 5,
            396 | 397 => 6,
            _ => 7,
        }
    }

    // A map with all its rows.
    fn whole_map(&mut self) -> Result<(), AllocError> {
        self.k = self.some_k();
        self.level = 0;
        self.command_with(None, b"map", &[self.k])?;
        let side = side_of(self.k, 0);
        for _ in 0..side {
            self.row(side, None)?;
        }
        Ok(())
    }

    // Rows of which one in so many has a flaw, with a blank line between them now and then.
    fn flawed_rows(&mut self, rows: u64, side: u64, seldom: u64) -> Result<(), AllocError> {
        for _ in 0..rows {
            let flaw = self.flaw(seldom);
            self.row(side, flaw)?;
            if self.random.one_in(seldom.saturating_mul(12)) {
                self.put_one_of(ENDS)?;
            }
        }
        Ok(())
    }

    // A map that lacks rows, has too many, or has rows with flaws.
    fn flawed_map(&mut self) -> Result<(), AllocError> {
        let k = self.some_k();
        let side = side_of(k, 0);
        let (rows, seldom) = match self.random.below(10) {
            0 => (self.random.below(side), side.saturating_mul(3)),
            1 => (side.saturating_sub(1), side.saturating_mul(3)),
            2 | 3 => (side.saturating_add(1), side.saturating_mul(3)),
            4 => (side.saturating_add(2), side.saturating_mul(3)),
            _ => (side, side.saturating_add(1) / 2),
        };
        self.command(b"map", &[k])?;
        self.flawed_rows(rows, side, seldom)
    }

    // A map of many levels, with a few short rows.
    fn large_map(&mut self) -> Result<(), AllocError> {
        let k = match self.random.below(8) {
            0 => 6,
            1 => 7,
            2..=4 => 8,
            5 | 6 => 9,
            _ => self.large(),
        };
        let rows = self.random.below(4);
        self.command(b"map", &[k])?;
        self.flawed_rows(rows, 3, 4)
    }

    fn some_map(&mut self) -> Result<(), AllocError> {
        match self.random.below(6) {
            0 | 1 => self.whole_map(),
            2 => self.large_map(),
            _ => self.flawed_map(),
        }
    }

    fn bad_line(&mut self) -> Result<(), AllocError> {
        self.put_one_of(BAD_LINES)?;
        self.put_mostly(b"\n", ENDS)
    }

    fn line(&mut self) -> Result<(), AllocError> {
        match self.random.below(60) {
            0..=3 => self.some_map(),
            4..=12 => self.level(),
            13..=35 => self.window(),
            36..=44 => self.set(),
            45..=47 => self.command(b"tower", &[]),
            48..=51 => self.coarse(),
            52..=54 => self.put_mostly(b"\n", ENDS),
            _ => self.bad_line(),
        }
    }

    fn some_lines(&mut self, most: u64) -> Result<(), AllocError> {
        for _ in 0..self.random.below(most) {
            self.line()?;
        }
        Ok(())
    }

    // The text of a run: lines before the first map and rows at the end now and then, and often no end of the last line.
    pub fn next_run(&mut self) -> Result<Vec<u8>, AllocError> {
        self.k = 2;
        self.level = 0;
        if self.random.one_in(4) {
            self.some_lines(6)?;
        }
        if !self.random.one_in(40) {
            self.whole_map()?;
            self.some_lines(80)?;
        }
        if self.random.one_in(4) {
            self.some_map()?;
        }
        if self.random.one_in(3) {
            let _ = self.text.pop();
        }
        Ok(std::mem::replace(&mut self.text, Vec::new(self.alloc)))
    }

    // A text in two pieces, cut behind a line's end, or behind all of it.
    pub fn cut<'a>(&mut self, text: &'a [u8]) -> (&'a [u8], &'a [u8]) {
        let from = self.random.below(text.len() as u64) as usize;
        let end = text.iter().skip(from).position(|byte| *byte == b'\n');
        let cut = match end {
            Some(i) => from.saturating_add(i).saturating_add(1),
            None => text.len(),
        };
        text.split_at(cut.min(text.len()))
    }
}
