// Random maps, windows and changes beside copies that are halved from the start. Prints how many cases agree.
#![tactic(auto)]

mod case;
mod map;

use crate::case::Case;
use chance::Random;
use std::alloc::{AllocError, Global};
use std::fmt;
use tower::Done;

// What agrees of the maps of k levels.
#[derive(Default, Drop)]
struct Agreed {
    maps: u64,
    windows: u64,
    changes: u64,
    parts: u64,
}

impl fmt::Display for Agreed {
    fn fmt<W: fmt::Write>(&self, f: &mut fmt::Formatter<W>) -> fmt::Result {
        let Agreed {
            maps,
            windows,
            changes,
            parts,
        } = self;
        write!(
            f,
            "{maps} maps, {windows} windows, {changes} changes, {parts} parts agree"
        )
    }
}

impl Agreed {
    // A map: built, shown, changed a few times, and shown again.
    fn add(&mut self, random: &mut Random, case: &mut Case) -> Result<(), AllocError> {
        let built = case.build() == Ok(Done::Built);
        self.maps = self.maps.wrapping_add(u64::from(built));
        self.windows = self.windows.wrapping_add(case.windows_agree(random)?);
        for _ in 0..10 {
            let agrees = case.change_agrees(random)?;
            self.changes = self.changes.wrapping_add(u64::from(agrees));
        }
        self.windows = self.windows.wrapping_add(case.windows_agree(random)?);
        self.parts = self.parts.wrapping_add(case.parts_agree(random)?);
        Ok(())
    }
}

// So many maps of k levels.
fn try_maps(alloc: Global, random: &mut Random, k: u64, many: u64) -> Result<Agreed, AllocError> {
    let mut agreed = Agreed::default();
    for _ in 0..many {
        let mut case = Case::random(alloc, random, k)?;
        agreed.add(random, &mut case)?;
    }
    Ok(agreed)
}

fn main(rt: HostRuntime) -> anyhow::Result<()> {
    let mut random = Random::new(20261117);
    for k in 0..8 {
        let many = if k < 6 { 40 } else { 12 };
        let agreed = try_maps(rt.alloc(), &mut random, k, many)?;
        println!(rt; "{k} levels: {agreed}")?;
    }
    Ok(())
}
