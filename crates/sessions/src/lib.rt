// A session: lines of text taken one after the other, each answered.
#![tactic(auto)]

use drafts::Draft;
use viewer::Viewer;

pub mod laws;
pub mod steps;

// How many lines were taken, the map whose rows are being given, and the map that is looked at.
#[derive(Drop)]
pub struct Session {
    line: u64,
    draft: Option<Draft>,
    viewer: Option<Viewer>,
}
