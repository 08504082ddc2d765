// A map whose rows are being given.
#![tactic(auto)]

ghost use Rattle.std.specs.Prelude.{◌≡◌, ℕ, ◌++◌, IfOk, Some, None, OnOk, MatchOption, MatchResult};
ghost use Rattle.pairs.specs.Pairs.{Height};
ghost use Rattle.tower.specs.Checks.{first_wrong};
ghost use Rattle.tower.specs.Known.{SideOf};
ghost use Rattle.viewer.specs.Shows.{Shows};
ghost use Rattle.drafts.specs.Drafts.{Drafts, Refuses, Whole};
ghost use Rattle.drafts.specs.Given.{Given, map_given, map_refusal, no_rows, with_row};

use maps::HeightMap;
use messages::failure::Failure;
use refusals::Refusal;
use std::alloc::{AllocError, Global};
use std::error::Error;
use std::fmt;
use tower::checks::side_of;
use viewer::Viewer;

// The heights of the rows so far, up to the first place that is wrong; what they are refused for is told when the rows have ended.
#[derive(Drop)]
pub struct Draft {
    k: u64,
    heights: Vec<i32>,
    refusal: Option<Refusal>,
}

// Why no map is made of the rows.
#[derive(Clone, Copy, PartialEq, Eq, Debug)]
pub enum MapError {
    Refused(Refusal),
    OutOfMemory(AllocError),
}

impl From<Refusal> for MapError {
    ghost use Rattle.drafts.specs.declared.MapError.TheVariants.{Refused};

    ghost from_gives = { λ refusal error. error ≡ Refused refusal };

    fn from(refusal: Refusal) -> Self {
        Self::Refused(refusal)
    }
}

impl From<AllocError> for MapError {
    ghost use Rattle.drafts.specs.declared.MapError.TheVariants.{OutOfMemory};

    ghost from_gives = { λ failed error. error ≡ OutOfMemory failed };

    fn from(failed: AllocError) -> Self {
        Self::OutOfMemory(failed)
    }
}

// The refusal as it prints, or want of memory.
impl fmt::Display for MapError {
    ghost use Rattle.drafts.specs.Drafts.{error_text};

    ghost output = { λ e. Some (error_text e) };

    fn fmt<W: fmt::Write>(&self, f: &mut fmt::Formatter<W>) -> fmt::Result {
        match self {
            MapError::Refused(refusal) => write!(f, "{refusal}"),
            MapError::OutOfMemory(failed) => {
                let failure = Failure::from(*failed);
                write!(f, "{failure}")
            }
        }
    }
}

impl Error for MapError {}

// The height that a number is, if it is one.
fn height_of(number: i64) -> Option<i32>
    ensures { MatchOption result (Height number → ⊥) (λ height. (height ≡ number) × Height number) }
{
    i32::try_from(number)
        .ok()
        .filter(|height| HeightMap::is_height(*height))
}

// The numbers of a row of so many places put to the heights: the first place of the row that is wrong, if one is, which is no error of the call.
fn put_heights(
    heights: &mut Vec<i32>,
    many: usize,
    row: &[i64],
) -> Result<Option<usize>, AllocError>
    ensures { IfOk result (λ wrong. (wrong ≡ first_wrong many 0 row.now) × (wrong ≡ None → heights.new.items ≡ heights.old.items ++ row.now)) }
{
    for (at, number) in row.iter().enumerate() {
        match height_of(*number) {
            Some(height) if at < many => heights.push(height)?,
            _ => return Ok(Some(at)),
        }
    }
    Ok((row.len() < many).then_some(row.len()))
}

impl Draft {
    // A map of k levels, of which no row is given yet.
    pub fn new(alloc: Global, k: u64) -> Draft
        ensures { Drafts result (no_rows k) }
    {
        Draft {
            k,
            heights: Vec::new(alloc),
            refusal: None,
        }
    }

    // One row more.
    pub fn put_row(&mut self, row: &[i64]) -> Result<(), AllocError>
        ensures { (g : Given) (line : ℕ) → Drafts self.old g → OnOk result (Drafts self.new (with_row g line (Some row.now))) }
    {
        let Ok(side) = side_of(self.k) else {
            return Ok(());
        };
        if self.refusal.is_some() {
            return Ok(());
        }
        let begin = self.heights.len();
        if begin >= side * side {
            self.refusal = Some(Refusal::WrongNumber(begin as u64));
            return Ok(());
        }
        if let Some(place) = put_heights(&mut self.heights, side, row)? {
            self.refusal = Some(Refusal::WrongNumber((begin + place) as u64));
        }
        Ok(())
    }

    // One row more, on a line that cannot be read: the first such line is told before any wrong place.
    pub fn mark_unreadable(&mut self, line: u64)
        ensures { (g : Given) → Drafts self.old g → Drafts self.new (with_row g line None) }
    {
        match self.refusal {
            Some(Refusal::Unreadable(_)) => {}
            _ => self.refusal = Some(Refusal::Unreadable(line)),
        }
    }

    // Whether a map is made of the rows, but for rows that are missing: its side.
    fn check(&self) -> Result<usize, Refusal>
        ensures side { IfOk result (λ side. SideOf self.now.k side) }
        ensures tells { (g : Given) → Drafts self.now g → MatchResult result (λ side. Whole g self.now.heights.items side) (λ e. map_refusal g ≡ Some e) }
    {
        let side = side_of(self.k)?;
        match self.refusal {
            Some(refusal) => Err(refusal),
            None => Ok(side),
        }
    }

    // The rows have ended: the viewer of the map that they make.
    pub fn finish(self, alloc: Global) -> Result<Viewer, MapError>
        ensures { (g : Given) → Drafts self g → MatchResult result (λ viewer. (map_refusal g ≡ None) × Shows viewer (map_given g)) (Refuses (map_refusal g)) }
    {
        let side = self.check()?;
        let mut tower = vec![in alloc; 0; side * side]?;
        tower::build(self.k, &self.heights, &mut tower)?;
        Ok(Viewer::new(self.k, tower))
    }
}
