//! What is debugged, and the script that it is debugged by.
ghost use Rattle.std.specs.Prelude.{◌≡◌, ◌<◌, ◌^◌, length};
ghost use Rattle.debug_script.specs.Script.{scripted};
ghost use Rattle.file_plans.specs.Plans.{Follows, Meets, unless};
ghost use Rattle.ready_tasks.specs.Debugs.{unscripted, script_at};
ghost use Rattle.ready_tasks.specs.Commands.{debug_plan};
ghost use Rattle.ready_tasks.specs.ReadyTasks.{FollowsTask};

use crate::ready::ReadyTask;
use command_words::{FileName, Linked};
use debug_script::{Script, ScriptFault, script_of};
use file_plans::{Refusal, Stop, read};
use link_tool::start;
use linked_starts::Start;
use outside_io::Files;
use std::alloc::Global;

// The script that a text is.
fn script(alloc: Global, text: &[u8]) -> Result<Script, Stop>
    ensures { Meets (unless unscripted (scripted text.now)) result }
{
    match script_of(alloc, text) {
        Ok(script) => Ok(script),
        Err(ScriptFault::Line(line)) => Err(Stop::Refused(Refusal::Script(line))),
        Err(ScriptFault::NoMemory) => Err(Stop::NoMemory),
    }
}

// Reads a script. `index` is what a refusal tells of its file.
#[tactic(auto, using(file_plans::proofs::Offers::follows_end), unfolding(crate::specs::Debugs::script_at))]
fn read_script<F: Files>(
    alloc: Global,
    files: &mut F,
    name: &FileName<'_>,
    index: u32,
) -> Result<Script, Stop>
    ensures { Follows (script_at name.now index) (F.seen files.old) result (F.seen files.new) }
{
    let text = read(alloc, files, name, index)?;
    script(alloc, text.as_slice())
}

fn part_count(start: &Start) -> u32
    requires { length start.now.owners < 2 ^ 32 }
    ensures { result ≡ length start.now.owners }
{
    start.owners().len() as u32
}

/// Reads what is debugged, and then the script, and makes the start.
pub(crate) fn ready_debug<'a, F: Files>(
    alloc: Global,
    files: &mut F,
    what: &Linked<'_>,
    name: &FileName<'_>,
) -> Result<ReadyTask<'a>, Stop>
    ensures { FollowsTask (debug_plan what.now name.now) (F.seen files.old) result (F.seen files.new) }
{
    let start = start(alloc, files, what)?;
    let index = part_count(&start);
    let script = read_script(alloc, files, name, index)?;
    Ok(ReadyTask::Debug(start, script))
}
