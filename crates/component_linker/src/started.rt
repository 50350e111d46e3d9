//! The start of parts that are placed.
ghost use Rattle.std.specs.Prelude.{IfOk};
ghost use Rattle.linked_starts.specs.Linked.{Linked};
ghost use Rattle.linked_starts.specs.Started.{Starts};

use crate::machine::machine;
use crate::memory::stack_of;
use crate::owners::{owners, sites};
use crate::placed::PlacedParts;
use linked_starts::Start;
use std::alloc::{AllocError, Global};

/// The start of parts that are linked, with a stack of this size. Memory may be refused.
pub(crate) fn start_of(
    alloc: Global,
    parts: &PlacedParts<'_>,
    size: u32,
) -> Result<Start, AllocError>
    requires { Linked parts.now size }
    ensures { IfOk result (Starts parts.now size) }
{
    let sites = sites(alloc, parts)?;
    let owners = owners(alloc, parts)?;
    let state = machine(alloc, parts, size)?;
    Ok(Start::of(state, sites, owners, stack_of(parts, size)))
}
