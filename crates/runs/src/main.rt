// Random runs of commands, bad lines among them: what a session answers beside what is worked out from the map itself.
#![tactic(auto)]

mod expected;
mod given;
mod halving;
mod reading;
mod refused;
mod script;
mod slips;
mod tally;

use crate::expected::expected;
use crate::script::Script;
use crate::tally::Tally;
use anyhow::anyhow;
use sessions::Session;
use std::alloc::{AllocError, Global};
use std::fmt;

const RUNS: u64 = 400;

// What a session answers to a text that comes in pieces.
fn answered(alloc: Global, pieces: &[&[u8]]) -> Result<String, AllocError> {
    let mut session = Session::new();
    let mut out = String::new(alloc);
    for piece in pieces {
        session.run(alloc, piece, &mut out)?;
    }
    session.end_rows(alloc, &mut out)?;
    Ok(out)
}

// A text whose bytes are shown as characters.
fn legible(alloc: Global, text: &[u8]) -> Result<String, AllocError> {
    text.iter().map(|byte| char::from(*byte)).collect(alloc)
}

// A text whose answers differ, and these, on the standard error output.
fn show(rt: &HostRuntime, text: &[u8], right: &str, answers: &str) -> Result<(), AllocError> {
    let text = legible(rt.alloc(), text)?;
    let text = text.as_str();
    let _ = eprintln!(rt; "The text\n{text}\nshould answer\n{right}\nand answers\n{answers}");
    Ok(())
}

// How many bytes were compared, and how many of them differ.
#[derive(Default, Drop)]
struct Compared {
    bytes: usize,
    differ: usize,
}

impl Compared {
    // `trials` counts numbers that differ alike: two lines, in programs that share no code on purpose.
    fn compare(&mut self, a: &[u8], b: &[u8]) {
        let others = a.iter().zip(b).filter(|(x, y)| x != y).count();
        self.differ = self
            .differ
            .saturating_add(others)
            .saturating_add(a.len().abs_diff(b.len()));
        self.bytes = self.bytes.saturating_add(a.len().max(b.len()));
    }

    // One run, at once and in two pieces. The first that differs is shown.
    fn add_run(
        &mut self,
        rt: &HostRuntime,
        text: &[u8],
        pieces: &[&[u8]],
        right: &str,
    ) -> Result<(), AllocError> {
        let before = self.differ;
        let whole = answered(rt.alloc(), &[text])?;
        let parted = answered(rt.alloc(), pieces)?;
        self.compare(whole.as_bytes(), right.as_bytes());
        self.compare(parted.as_bytes(), right.as_bytes());
        if before == 0 && self.differ > 0 {
            show(rt, text, right, parted.as_str())?;
        }
        Ok(())
    }
}

impl fmt::Display for Compared {
    fn fmt<W: fmt::Write>(&self, f: &mut fmt::Formatter<W>) -> fmt::Result {
        write!(f, "{} bytes compared, {} differ", self.bytes, self.differ)
    }
}

fn compare_runs(
    rt: &HostRuntime,
    tally: &mut Tally,
    compared: &mut Compared,
) -> Result<(), AllocError> {
    let mut script = Script::new(rt.alloc(), 20261117);
    for _ in 0..RUNS {
        let text = script.next_run()?;
        let (first, second) = script.cut(&text);
        let right = expected(rt.alloc(), &text, tally)?;
        compared.add_run(rt, &text, &[first, second], right.as_str())?;
    }
    Ok(())
}

fn main(rt: HostRuntime) -> anyhow::Result<()> {
    let mut tally = Tally::default();
    let mut compared = Compared::default();
    if compare_runs(&rt, &mut tally, &mut compared).is_err() {
        return Err(anyhow!("out of memory"));
    }
    println!(rt; "{RUNS} runs, {tally}")?;
    println!(rt; "{compared}")?;
    Ok(())
}
