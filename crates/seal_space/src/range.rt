//! Ranges of seals that have none in common.
ghost use Rattle.std.specs.Prelude.{◌≡◌};
ghost use Rattle.std.specs.Bool.{Decides};
ghost use Rattle.seal_space.specs.Seals.{NoneInBoth, are_disjoint};

use cap_words::SealRange;

/// Whether no seal is in both ranges. An empty range has no seals.
pub fn disjoint(a: &SealRange, b: &SealRange) -> bool
    ensures is { result ≡ are_disjoint a.now b.now }
    ensures exact { Decides result (NoneInBoth a.now b.now) }
{
    a.count() == 0
        || b.count() == 0
        || a.base() + a.count() <= b.base()
        || b.base() + b.count() <= a.base()
}
