//! The numbers of the calls that an object in memory takes.
ghost use Rattle.std.specs.Prelude.{◌≡◌, ◌↔◌, IsTrue};
ghost use Rattle.outside_io.specs.Memory.{no_calls, with_call, with_failing, NextFails};

use std::marker::Model;

/// How many calls there were, and the number of the one that is to fail. Calls count from 1, and
/// the count stands still at the greatest `u64`.
#[derive(Drop)]
pub struct Calls {
    made: u64,
    failing: Option<u32>,
}

impl Model for Calls {
    ghost use Rattle.outside_io.specs.Memory.{CallNumbers};

    ghost Value = { CallNumbers };

    ghost view = { λ c. record { made = c.made; failing = c.failing } };
}

impl Calls {
    /// No call yet, and none that is to fail.
    pub fn new() -> Self
        ensures { result ≡ no_calls }
    {
        Calls {
            made: 0,
            failing: None,
        }
    }

    /// Lets the call of this number fail, and none of those that were set before.
    pub fn fail_at(&mut self, number: u32)
        ensures { self.new ≡ with_failing self.old number }
    {
        self.failing = Some(number);
    }

    /// How many calls there were.
    pub fn made(&self) -> u64
        ensures { result ≡ self.now.made }
    {
        self.made
    }

    /// Counts the call that begins, and says whether it is the one that is to fail.
    pub fn begin(&mut self) -> bool
        ensures fails { IsTrue result ↔ NextFails self.old }
        ensures counted { self.new ≡ with_call self.old }
    {
        self.made = self.made.saturating_add(1);
        match self.failing {
            Some(number) => u64::from(number) == self.made,
            None => false,
        }
    }
}
