//! What rules L2 and L5 forbid: seals of two parts, and imports of what isn't shared.
ghost use Rattle.std.specs.Prelude.{◌≡◌};
ghost use Rattle.seal_space.specs.Seals.{has_seal};
ghost use Rattle.linked_starts.specs.Links.{share_seals, is_private};

use crate::names::Exported;
use crate::placed::Placed;
use cap_words::SealRange;
use seal_space::disjoint;

fn has_seal(range: &SealRange, seal: u32) -> bool
    ensures { result ≡ has_seal range.now seal }
{
    range.base() <= seal && seal < range.base() + range.count()
}

/// Whether a seal is a closure seal or a return seal of both parts.
pub(crate) fn share_seals(p: &Placed, q: &Placed) -> bool
    ensures { result ≡ share_seals p.now q.now }
{
    if p.closure() == q.closure() {
        return true;
    }
    if has_seal(p.seals(), q.closure()) || has_seal(q.seals(), p.closure()) {
        return true;
    }
    !disjoint(p.seals(), q.seals())
}

/// Whether an export is there that a part may not import.
pub(crate) fn is_private(part: &Placed, exported: Option<Exported>) -> bool
    ensures { result ≡ is_private part.now exported.entry }
{
    match exported {
        None => false,
        Some(x) => !x.export.shared && x.part.name() != part.name(),
    }
}
