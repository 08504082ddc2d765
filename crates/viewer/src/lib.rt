// The map that a run of commands looks at: its tower, and the level of its windows.
#![tactic(auto)]

ghost use Rattle.std.specs.Prelude.{◌≡◌, ◌≤◌, vec_len};
ghost use Rattle.maps.specs.Limits.{max_k};
ghost use Rattle.tower.specs.Checks.{places};

pub mod obey;

// A tower of 2^k by 2^k places.
#[derive(Drop)]
pub struct Viewer {
    k: u64,
    level: u64,
    tower: Vec<i32>,
    ghost levels: { k ≤ max_k },
    ghost there: { level ≤ k },
    ghost whole: { vec_len tower ≡ places k },
}
