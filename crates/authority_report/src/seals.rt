//! The seals of a report.
ghost use Rattle.std.specs.Prelude.{◌≡◌, map, IfOk};
ghost use Rattle.std.specs.List.{All};
ghost use Rattle.authority_report.specs.SealRanges.{range_of, Fits};

use crate::set::Stretch;
use cap_words::{Items, SealRange};
use std::alloc::{AllocError, Global};

// A stretch of seals, as a range.
fn range_of(seals: &Stretch) -> SealRange
    requires { Fits seals.now }
    ensures { result ≡ range_of seals.now }
{
    SealRange::new(seals.base, seals.end - seals.base + 1)
}

/// Stretches of seals, as ranges.
pub(crate) fn ranges_of(
    alloc: Global,
    stretches: &[Stretch],
) -> Result<Items<SealRange>, AllocError>
    requires { All Fits stretches.now }
    ensures { IfOk result (λ ranges. ranges ≡ map range_of stretches.now) }
{
    let mut ranges = Vec::new(alloc);
    for seals in stretches {
        ranges.push(range_of(seals))?;
    }
    Ok(Items::of(ranges))
}
