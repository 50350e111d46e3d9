//! The meaning of modules.
ghost use Rattle.std.specs.Prelude.{◌≡◌, IfOk, map};
ghost use Rattle.proc_program.specs.Lower.{part_of};
ghost use Rattle.proc_semantics.specs.Meaning.{meaning};

use crate::telling::meaning_of_parts;
use proc_language::Module;
use proc_program::{Program, lowered};
use source_events::{Item, Told};
use std::alloc::{AllocError, Global};

fn all_lowered(alloc: Global, modules: &[Module]) -> Result<Vec<Program>, AllocError>
    ensures { IfOk result (λ world. world.items ≡ map part_of modules.now) }
{
    let mut world = Vec::new(alloc);
    for m in modules {
        world.push(lowered(alloc, m)?)?;
    }
    Ok(world)
}

/// The meaning of a feed under a fuel, over modules: exactly the one defined over their programs, unless
/// memory is refused. It says what sources mean where the names of the modules are resolved; see
/// [`meaning_of_parts`] for the rest.
pub fn meaning(
    alloc: Global,
    modules: &[Module],
    stack: u32,
    feed: &[Item],
    fuel: u64,
) -> Result<Told, AllocError>
    ensures { IfOk result (λ t. t ≡ meaning (map part_of modules.now) stack feed.now fuel) }
{
    let world = all_lowered(alloc, modules)?;
    meaning_of_parts(alloc, world.as_slice(), stack, feed, fuel)
}
