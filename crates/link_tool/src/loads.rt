//! The start of a generated load, of its two parts.
ghost use Rattle.std.specs.Prelude.{◌≡◌, IfOk, length};
ghost use Rattle.file_plans.specs.Plans.{Meets};
ghost use Rattle.link_tool.specs.Loads.{load_module, load_other, load_parts, load_plan};
ghost use Rattle.link_tool.specs.Linked.{MeetsStart};

use crate::generated::{LOAD_STACK, Workload, adder, module_text};
use crate::parts::{accept_at, compile_at};
use crate::starts::start_of;
use cap_words::Items;
use component_linker::{Part, Start};
use file_plans::Stop;
use proc_language::Dialect;
use std::alloc::Global;

// The trusted module.
fn module_part(alloc: Global, load: Workload) -> Result<Part, Stop>
    ensures { Meets (load_module load) result }
{
    let text = module_text(load);
    let component = compile_at(alloc, 0, Dialect::Plain, text.as_bytes())?;
    accept_at(component, 0, true)
}

// The untrusted part.
fn other_part(alloc: Global, load: Workload) -> Result<Part, Stop>
    ensures { Meets (load_other load) result }
{
    let component = adder(alloc, load)?;
    accept_at(component, 1, false)
}

// Both of them.
fn parts_of(alloc: Global, load: Workload) -> Result<Items<Part>, Stop>
    ensures are { Meets (load_parts load) result }
    ensures count { IfOk result (λ parts. length parts ≡ 2) }
{
    let module = module_part(alloc, load)?;
    let other = other_part(alloc, load)?;
    let parts = vec![in alloc; module, other]?;
    Ok(Items::of(parts))
}

/// The start of a load's parts, which are compiled and linked as those of words are, of which no file is
/// read.
///
/// It stops where those of words would, part 0 being the module, and where memory is refused.
pub fn load_start(alloc: Global, load: Workload) -> Result<Start, Stop>
    ensures { MeetsStart (load_plan load) result }
{
    let parts = parts_of(alloc, load)?;
    start_of(alloc, &parts, LOAD_STACK)
}
