//! That sources can mean the same. These functions do nothing; their contracts are the laws.
ghost use Rattle.context_instance.specs.Doubles.{TwoWays};
ghost use Rattle.context_instance.specs.Halts.{EndsCount};

use context_laws::laws::{same_meanings_are_not_told_apart, same_meanings_end_alike};

/// There are two modules, of different code and data, that mean the same and end the same way.
///
/// There are links of both beside each other. They share a procedure which doubles its argument, the one by a
/// sum, the other over a global and an `if`. Both are modules whose names are resolved. So, linked with the
/// same untrusted parts at the same addresses, no code outside can tell them apart, and whole plain runs end
/// alike.
pub fn two_ways_are_one()
    ensures { TwoWays }
{
    same_meanings_are_not_told_apart();
    same_meanings_end_alike();
}

/// There are two modules that mean the same and don't end the same way.
///
/// Both halt, the one with 1 and the other with 2. Nothing is observed of them on any feed.
pub fn ends_count()
    ensures { EndsCount }
{}
