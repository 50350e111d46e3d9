//! Ranges of seals.
ghost use Rattle.std.specs.Prelude.{◌≡◌, ◌≤◌};

use crate::{LAST_PLACE, LONGEST_STRETCH};
use std::marker::Model;

/// So many seals from a first one on; there may be none. A contract sees the first seal and the
/// count.
///
/// The first is at most [`LAST_PLACE`], and there are at most [`LONGEST_STRETCH`]. Each value keeps
/// this. That the range ends within the seals is no part of it.
#[derive(Drop)]
pub struct SealRange {
    base: u32,
    count: u32,
}

impl Model for SealRange {
    ghost use Rattle.std.specs.Prelude.{◌≤◌};
    ghost use Rattle.cap_words.specs.Stretch.{Stretch};
    ghost use Rattle.cap_words.specs.declared.TheConstants.{LAST_PLACE, LONGEST_STRETCH};

    ghost Value = { Stretch };

    ghost view = { λ r. record { base = r.base; count = r.count } };

    ghost invariant = { λ r. (r.base ≤ LAST_PLACE) × (r.count ≤ LONGEST_STRETCH) };
}

impl SealRange {
    /// The `count` seals from `base` on.
    pub fn new(base: u32, count: u32) -> SealRange
        requires in_space { base ≤ LAST_PLACE }
        requires few { count ≤ LONGEST_STRETCH }
        ensures { result ≡ record { base = base; count = count } }
    {
        SealRange { base, count }
    }

    /// The first seal.
    pub fn base(&self) -> u32
        ensures same { result ≡ self.now.base }
        ensures in_space { result ≤ LAST_PLACE }
    {
        self.base
    }

    /// How many seals there are.
    pub fn count(&self) -> u32
        ensures same { result ≡ self.now.count }
        ensures few { result ≤ LONGEST_STRETCH }
    {
        self.count
    }
}
