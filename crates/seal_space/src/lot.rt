//! Lots of seals, and the tokens that are drawn from them.
ghost use Rattle.std.specs.Prelude.{◌≡◌, ◌≤◌, false, IsTrue, IfSome};
ghost use Rattle.seal_space.specs.Seals.{has_seal, next_of, after_draw};

use cap_words::SealRange;
use std::marker::Model;

/// Seals that are still to be given, each once, in ascending order. A contract sees the first of
/// them and how many they are.
///
/// It isn't `Clone`: two lots of the same seals would give each of them twice.
#[derive(Drop)]
pub struct SealLot {
    next: u32,
    left: u32,
}

impl Model for SealLot {
    ghost use Rattle.std.specs.Prelude.{◌+◌, ◌≤◌};
    ghost use Rattle.cap_words.specs.Stretch.{Stretch};

    ghost Value = { Stretch };

    ghost view = { λ lot. record { base = lot.next; count = lot.left } };

    ghost invariant = { λ lot. lot.next + lot.left ≤ 1114111 };
}

impl SealLot {
    /// All seals of a range.
    pub fn of(range: SealRange) -> SealLot
        ensures { result ≡ range }
    {
        SealLot {
            next: range.base(),
            left: range.count(),
        }
    }

    /// The next seal, which the lot then no longer has, and `None` exactly where none is left: as
    /// many were drawn as the range counts.
    pub fn draw(&mut self) -> Option<SealToken>
        ensures next { result ≡ next_of self.old }
        ensures left { self.new ≡ after_draw self.old }
        ensures drawn { IfSome result (λ t. IsTrue (has_seal self.old t)) }
        ensures once { IfSome result (λ t. has_seal self.new t ≡ false) }
    {
        if self.left == 0 {
            return None;
        }
        let seal = self.next;
        self.next = seal + 1;
        self.left -= 1;
        Some(SealToken { seal })
    }
}

/// A seal that was drawn from a lot and is bound to nothing yet. A contract sees its number.
///
/// It is neither `Clone` nor `Drop`: a path that doesn't spend it, by [`SealToken::bind`], is a
/// compile error.
pub struct SealToken {
    seal: u32,
}

impl Model for SealToken {
    ghost use Rattle.std.specs.Prelude.{ℕ};

    ghost Value = { ℕ };

    ghost view = { λ t. t.seal };
}

impl SealToken {
    /// The number of its seal.
    pub fn number(&self) -> u32
        ensures { result ≡ self.now }
    {
        self.seal
    }

    /// Spends it: the site of this index has the seal.
    pub fn bind(self, site: u32) -> SiteSeal
        ensures { result ≡ record { seal = self; site = site } }
    {
        let SealToken { seal } = self;
        SiteSeal { seal, site }
    }
}

/// The seal of a site, which is a call in trusted code with its return point.
#[derive(Clone, Copy)]
pub struct SiteSeal {
    /// The seal.
    pub seal: u32,
    /// The index of the site among those of its part.
    pub site: u32,
}
