//! What is left to do once the files of a command came.
ghost use Rattle.std.specs.Prelude.{◌≡◌, ◌≤◌, IfOk, IfErr, length};
ghost use Rattle.command_words.specs.declared.command.LinkDeed.TheVariants as link_deed;
ghost use Rattle.link_tool.specs.Parts.{part_at, component_at};
ghost use Rattle.ready_tasks.specs.Audits.{audit_at};
ghost use Rattle.run_audit.specs.Audit.{audited};
ghost use Rattle.file_plans.specs.Plans.{Follows, Meets, unless};
ghost use Rattle.file_plans.specs.declared.refusal.Refusal.TheVariants as refusal;
ghost use Rattle.link_tool.specs.Generated.{load_of};
ghost use Rattle.outside_io.specs.FilesSeen.{FilesSeen};
ghost use Rattle.ready_tasks.specs.Commands.{ok_text, OfModule, Put, Write, Tell};
ghost use Rattle.ready_tasks.specs.Commands.{link_task, load_task, component_task, for_task, plan_of};
ghost use Rattle.link_tool.specs.Linked.{linked_plan};
ghost use Rattle.link_tool.specs.Loads.{load_plan};
ghost use Rattle.ready_tasks.specs.ReadyTasks.{Does, FollowsTask};
ghost use Rattle.meaning_tool.specs.Subjects.{module_at, subject_in};

use crate::debugging::ready_debug;
use authority_report::reach_text;
use cap_words::Items;
use command_words::{
    Command, ComponentDeed, FileName, LinkDeed, Linked, PartWord, PartWords, Seed, Steps,
};
use component_file::{Component, encode_component};
use debug_script::Script;
use disassembler::disassemble;
use file_plans::{Refusal, Stop, read};
use link_tool::generated::{Workload, load_of};
use link_tool::{component, image_bytes, load_start, part, start};
use linked_starts::Start;
use meaning_tool::{Meaning, erased, meant};
use outside_io::Files;
use overlay_machine::Overlay;
use run_audit::{AuditFault, audit};
use std::alloc::Global;

/// What is left to do.
#[derive(Drop)]
pub enum ReadyTask<'a> {
    /// To run from this start for so many steps, and to write how the run ended.
    Run(Start, Steps),
    /// To run from this start of this load, and to write the totals of the run.
    Generate(Start, Workload),
    /// To run this overlay of this start up to so much weight, and to write how the run ended.
    Trace(Start, Overlay, Steps),
    /// To debug from this start by this script, and to write the replies.
    Debug(Start, Script),
    /// To put these bytes into the file of this name, and then to write `ok`.
    Put(FileName<'a>, Items<u8>),
    /// To write this text.
    Write(Items<u8>),
    /// To write the text of this meaning.
    Tell(Meaning),
    /// To write `ok`.
    Say,
}

// Makes the start of what is to run.
fn run<'a, F: Files>(
    alloc: Global,
    files: &mut F,
    what: &Linked<'_>,
    steps: Steps,
) -> Result<ReadyTask<'a>, Stop>
    ensures { FollowsTask (for_task (linked_plan what.now) (link_task (link_deed.Run steps)))
        (F.seen files.old) result (F.seen files.new) }
{
    let start = start(alloc, files, what)?;
    Ok(ReadyTask::Run(start, steps))
}

// Makes the start whose overlay is to run, and the overlay.
fn trace<'a, F: Files>(
    alloc: Global,
    files: &mut F,
    what: &Linked<'_>,
    steps: Steps,
) -> Result<ReadyTask<'a>, Stop>
    ensures { FollowsTask (for_task (linked_plan what.now) (link_task (link_deed.Trace steps)))
        (F.seen files.old) result (F.seen files.new) }
{
    let start = start(alloc, files, what)?;
    let overlay = Overlay::of_start(alloc, &start)?;
    Ok(ReadyTask::Trace(start, overlay, steps))
}

// Makes the image that is to be put.
fn store<'a, F: Files>(
    alloc: Global,
    files: &mut F,
    what: &Linked<'_>,
    out: FileName<'a>,
) -> Result<ReadyTask<'a>, Stop>
    ensures { FollowsTask (for_task (linked_plan what.now) (link_task (link_deed.Store out.entry)))
        (F.seen files.old) result (F.seen files.new) }
{
    let bytes = image_bytes(alloc, files, what)?;
    Ok(ReadyTask::Put(out, bytes))
}

// Makes the text of what parts can reach.
fn reach<'a, F: Files>(
    alloc: Global,
    files: &mut F,
    what: &Linked<'_>,
) -> Result<ReadyTask<'a>, Stop>
    ensures { FollowsTask (for_task (linked_plan what.now) (link_task link_deed.Reach))
        (F.seen files.old) result (F.seen files.new) }
{
    let told = {
        let start = start(alloc, files, what)?;
        reach_text(alloc, &start)
    };
    let text = told?;
    Ok(ReadyTask::Write(text))
}

// What is done with what links.
fn ready_link<'a, F: Files>(
    alloc: Global,
    files: &mut F,
    what: &Linked<'_>,
    deed: LinkDeed<'a>,
) -> Result<ReadyTask<'a>, Stop>
    ensures { FollowsTask (for_task (linked_plan what.now) (link_task deed.entry))
        (F.seen files.old) result (F.seen files.new) }
{
    match deed {
        LinkDeed::Run(steps) => run(alloc, files, what, steps),
        LinkDeed::Trace(steps) => trace(alloc, files, what, steps),
        LinkDeed::Store(out) => store(alloc, files, what, out),
        LinkDeed::Reach => reach(alloc, files, what),
    }
}

// What is done with a component.
fn ready_deed<'a>(
    alloc: Global,
    component: &Component,
    deed: ComponentDeed<'a>,
) -> Result<ReadyTask<'a>, Stop>
    ensures does { IfOk result (Does (component_task deed.entry component.now)) }
    ensures stops { IfErr result (λ stop. stop ≡ Stop.NoMemory) }
{
    match deed {
        ComponentDeed::Put(out) => {
            let bytes = encode_component(alloc, component)?;
            Ok(ReadyTask::Put(out, Items::of(bytes)))
        }
        ComponentDeed::Show => {
            let text = disassemble(alloc, component)?;
            Ok(ReadyTask::Write(Items::of(text)))
        }
    }
}

// Reads one component, of which no rule is asked.
fn ready_component<'a, F: Files>(
    alloc: Global,
    files: &mut F,
    word: &PartWord<'a>,
    deed: ComponentDeed<'a>,
) -> Result<ReadyTask<'a>, Stop>
    ensures { FollowsTask (for_task (component_at 0 word.now) (component_task deed.entry))
        (F.seen files.old) result (F.seen files.new) }
{
    let component = component(alloc, files, 0, word)?;
    ready_deed(alloc, &component, deed)
}

// Reads one part with its own rules.
fn ready_part<'a, F: Files>(
    alloc: Global,
    files: &mut F,
    word: &PartWord<'a>,
) -> Result<ReadyTask<'a>, Stop>
    ensures { FollowsTask (for_task (part_at 0 word.now) (λ part. Write ok_text))
        (F.seen files.old) result (F.seen files.new) }
{
    part(alloc, files, 0, word)?;
    Ok(ReadyTask::Say)
}

// Reads modules and a feed, and makes the text of their meaning.
fn ready_mean<'a, F: Files>(
    alloc: Global,
    files: &mut F,
    words: &PartWords<'_>,
    size: u32,
    fuel: Steps,
    feed: &FileName<'_>,
) -> Result<ReadyTask<'a>, Stop>
    ensures { FollowsTask (for_task (subject_in words.now size feed.now) (λ subject. Tell subject fuel))
        (F.seen files.old) result (F.seen files.new) }
{
    let meant = meant(alloc, files, words.as_slice(), size, fuel.number(), feed)?;
    Ok(ReadyTask::Tell(meant))
}

// Whether a text is a trace.
fn audit_text(alloc: Global, text: &[u8]) -> Result<(), Stop>
    ensures { Meets (unless refusal.Audit (audited text.now)) result }
{
    match audit(alloc, text) {
        Ok(()) => Ok(()),
        Err(AuditFault::NoMemory) => Err(Stop::NoMemory),
        Err(fault) => Err(Stop::Refused(Refusal::Audit(fault))),
    }
}

// Reads a text, and audits it.
#[tactic(auto, using(file_plans::proofs::Offers::follows_end), unfolding(crate::specs::Audits::audit_at))]
fn audit_file<F: Files>(alloc: Global, files: &mut F, name: &FileName<'_>) -> Result<(), Stop>
    ensures { Follows (audit_at name.now) (F.seen files.old) result (F.seen files.new) }
{
    let text = read(alloc, files, name, 0)?;
    audit_text(alloc, text.as_slice())
}

// Audits the text of a file.
fn ready_audit<'a, F: Files>(
    alloc: Global,
    files: &mut F,
    name: &FileName<'_>,
) -> Result<ReadyTask<'a>, Stop>
    ensures { FollowsTask (for_task (audit_at name.now) (λ u. Write ok_text))
        (F.seen files.old) result (F.seen files.new) }
{
    audit_file(alloc, files, name)?;
    Ok(ReadyTask::Say)
}

// Reads a module, and makes its text.
fn ready_erase<'a, F: Files>(
    alloc: Global,
    files: &mut F,
    word: &PartWord<'a>,
    out: FileName<'a>,
) -> Result<ReadyTask<'a>, Stop>
    ensures { FollowsTask (for_task (module_at 0 word.now) (λ m. Put out.entry (OfModule m)))
        (F.seen files.old) result (F.seen files.new) }
{
    let text = erased(alloc, files, word)?;
    Ok(ReadyTask::Put(out, text))
}

// Makes the start of a load.
fn ready_generate<'a>(alloc: Global, seed: Seed) -> Result<ReadyTask<'a>, Stop>
    ensures { (seen : FilesSeen) → FollowsTask (for_task (load_plan (load_of seed)) (load_task seed))
        seen result seen }
{
    let load = load_of(seed.number());
    let start = load_start(alloc, load)?;
    Ok(ReadyTask::Generate(start, load))
}

/// Reads the files of a command in their order, and answers what is left to do.
///
/// It errs with the first refusal in that order (docs/COMMANDS.md), or where memory is refused.
pub fn ready_of<'a, F: Files>(
    alloc: Global,
    files: &mut F,
    command: Command<'a>,
) -> Result<ReadyTask<'a>, Stop>
    ensures { FollowsTask (plan_of command.entry) (F.seen files.old) result (F.seen files.new) }
{
    match command {
        Command::Links(what, deed) => ready_link(alloc, files, &what, deed),
        Command::Takes(word, deed) => ready_component(alloc, files, &word, deed),
        Command::Checks(word) => ready_part(alloc, files, &word),
        Command::Mean(words, size, fuel, feed) => ready_mean(
            alloc, files, &words, size, fuel, &feed,
        ),
        Command::Debug(what, script) => ready_debug(alloc, files, &what, &script),
        Command::Generate(seed) => ready_generate(alloc, seed),
        Command::Audit(name) => ready_audit(alloc, files, &name),
        Command::Erase(word, out) => ready_erase(alloc, files, &word, out),
    }
}
