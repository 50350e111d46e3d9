//! What is left of a source without its tokens, as text.
ghost use Rattle.std.specs.Prelude.{◌≡◌, [], IfOk, IfErr};
ghost use Rattle.proc_names.specs.NameFaults.{name_faults};
ghost use Rattle.file_plans.specs.declared.refusal.Stop.TheVariants.{NoMemory};
ghost use Rattle.file_plans.specs.Plans.{FollowsAs};
ghost use Rattle.meaning_tool.specs.Subjects.{module_at};
ghost use Rattle.meaning_tool.specs.Erased.{IsErased};

use crate::modules::module;
use alike_modules::laws::printed_modules_are_sources;
use cap_words::Items;
use command_words::PartWord;
use file_plans::Stop;
use outside_io::Files;
use proc_language::Module;
use proc_print::print;
use std::alloc::Global;

// The text of a module whose names are resolved.
fn text_of(alloc: Global, m: &Module) -> Result<Items<u8>, Stop>
    requires { name_faults m.now ≡ [] }
    ensures does { IfOk result (IsErased m.now) }
    ensures stops { IfErr result (λ stop. stop ≡ NoMemory) }
{
    printed_modules_are_sources();
    let _limits = m.fields();
    let text = print(alloc, m)?;
    Ok(Items::of(text))
}

/// Reads the module of a part word, and makes its text: of a source with tokens that of what is left of it
/// without them.
///
/// It stops where [`module`] does, or where memory is refused.
pub fn erased<F: Files>(
    alloc: Global,
    files: &mut F,
    word: &PartWord<'_>,
) -> Result<Items<u8>, Stop>
    ensures { FollowsAs IsErased (module_at 0 word.now) (F.seen files.old) result (F.seen files.new) }
{
    let module = module(alloc, files, 0, word)?;
    text_of(alloc, &module)
}
