// Numbers at random from a seed: the same seed gives the same numbers in the same order.
#![tactic(auto)]

ghost use Rattle.std.specs.Prelude.{◌≡◌, ℕ, ◌↔◌, length, slice_get, IsTrue};
ghost use Rattle.chance.specs.Draws.{next_state, number_at, number_below, state_below};

use std::marker::Model;

// A sequence of numbers, by its state.
#[derive(Debug, Drop)]
pub struct Random {
    state: u64,
}

impl Model for Random {
    ghost Value = { ℕ };

    ghost view = { λ r. r.state };
}

impl Random {
    // The sequence of a seed.
    pub fn new(seed: u64) -> Random
        ensures { result ≡ seed }
    {
        Random { state: seed }
    }

    fn next(&mut self) -> u64
        ensures state { self.new ≡ next_state self.old }
        ensures number { result ≡ number_at self.new }
    {
        self.state = self
            .state
            .wrapping_mul(6364136223846793005)
            .wrapping_add(1442695040888963407);
        self.state >> 33
    }

    // A number below a limit. Below 0 it is 0, and none is drawn.
    pub fn below(&mut self, many: u64) -> u64
        ensures state { self.new ≡ state_below many self.old }
        ensures number { result ≡ number_below many self.old }
    {
        if many == 0 { 0 } else { self.next() % many }
    }

    // Comes true once in so many times.
    pub fn one_in(&mut self, many: u64) -> bool
        ensures state { self.new ≡ state_below many self.old }
        ensures number { IsTrue result ↔ (number_below many self.old ≡ 0) }
    {
        self.below(many) == 0
    }

    // One of a list, if it has any.
    pub fn one_of<T: Copy>(&mut self, list: &[T]) -> Option<T>
        ensures state { self.new ≡ state_below (length list.now) self.old }
        ensures item { result ≡ slice_get list.now (number_below (length list.now) self.old) }
    {
        list.get(self.below(list.len() as u64) as usize).copied()
    }
}
