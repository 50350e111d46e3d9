//! The top call.
ghost use Rattle.std.specs.Prelude.{◌≡◌, ◌⊎◌, ◌<◌, ◌≤◌, ◌^◌, ℕ, List, Some, None, length};
ghost use Rattle.command_words.specs.declared.command.LinkDeed.TheVariants as link_deed;
ghost use Rattle.command_words.specs.declared.command.Command.TheVariants.{Links, Mean, Generate};
ghost use Rattle.command_words.specs.declared.command.Command.TheVariants as asked;
ghost use Rattle.command_words.specs.declared.part.PartWord.{PartWord};
ghost use Rattle.command_words.specs.declared.command.Linked.{Linked};
ghost use Rattle.command_words.specs.declared.command.Linked.TheVariants as what;
ghost use Rattle.command_words.specs.Action.{asked_in};
ghost use Rattle.command_words.specs.Texts.{texts};
ghost use Rattle.ready_tasks.specs.declared.ready.ReadyTask.TheVariants as ready;
ghost use Rattle.ready_tasks.specs.Commands.{plan_in, Totals};
ghost use Rattle.run_lines.specs.Runs.{end_of};
ghost use Rattle.ready_tasks.specs.ReadyTasks.{FollowsTask};
ghost use Rattle.overlay_machine.specs.Seen.{IsOverlayOf};
ghost use Rattle.command_words.specs.Answers.{Answers, GivesAnswer, WritesOrFails, outside, GivesOrNothing};
ghost use Rattle.lcm_cli.specs.Answers.{ran, OfBytes, end_status, meaning_status, refused, ready_answer};
ghost use Rattle.lcm_cli.specs.Answers.{IsReady, stk};
ghost use Rattle.lcm_cli.specs.Causes.{Promised, IsRunStatus, RunGiven, TraceGiven, RunCut, TraceCut};
ghost use Rattle.lcm_cli.specs.Causes.{StayAt, PutsWhole, MeaningGiven, LoadGiven, ReachGiven, DebugGiven};
ghost use Rattle.lcm_cli.specs.Causes.{AuditTold};
ghost use Rattle.lcm_cli.specs.SourceRuns.{AllSources, SourcesTold, ModulesTold};

use crate::lines::write_lines;
use crate::totals::totals;
use audited_runs::laws::{runs_pass, texts_tell_items};
use authority_report::laws::{reports_bound_influence, reports_bound_runs};
use cap_words::Items;
use command_words::laws::commands_fit;
use command_words::{FileName, Steps, WordsFault, command_of};
use confinement::laws::code_outside_is_confined;
use debug_script::Script;
use debug_tool::laws::commands_remember;
use debug_tool::{DebugFault, debug};
use file_plans::{Refusal, Stop};
use headline::laws::{frames_are_secret, open_calls_are_kept, the_headline};
use lcm_machine::{LcmState, Step};
use link_tool::generated::{Workload, load_steps};
use linked_starts::Start;
use meaning_tool::Meaning;
use module_rules::laws::linked_modules_keep_rules;
use outside_io::{Files, Sink};
use overlay_machine::Overlay;
use overlay_machine::laws::a_start_has_one_overlay;
use proc_sources::laws::sources_are_modules;
use ready_tasks::{ReadyTask, ready_of};
use refusal_lines::{Status, refusal_line, refusal_status};
use source_events::End;
use source_starts::laws::{runs_mean, sources_show_nothing_else, stacks_begin};
use std::alloc::Global;
use trace_tool::{RunEnd, run_counted, run_overlay, run_plain};

// Writes a text, and answers the status, or WriteFault where the sink fails.
fn tell<S: Sink>(out: &mut S, text: &str, status: Status) -> Status
    requires { 0 < length text.now }
    ensures { WritesOrFails stk (S.seen out.old) text.now status result (S.seen out.new) }
{
    match out.write(text.as_bytes()) {
        Ok(()) => status,
        Err(_) => Status::WriteFault,
    }
}

fn end_status(end: RunEnd) -> Status
    ensures { result ≡ end_status end }
{
    match end {
        RunEnd::Halted => Status::Done,
        RunEnd::Failed => Status::MachineFailed,
        RunEnd::Running => Status::StepsUsed,
        RunEnd::WriteFault => Status::WriteFault,
    }
}

// Runs, writes the text of the run, and hands the machine over where all of it was written.
fn give_run<S: Sink>(start: Start, steps: Steps, out: &mut S, kept: &mut Option<LcmState>) -> Status
    requires fresh { start.state.count ≡ 0 }
    requires goes { start.state.end ≡ None }
    ensures { (files : _) → GivesAnswer stk (outside files (S.seen out.old) kept.old)
        (ready_answer (ready.Run start steps)) result (outside files (S.seen out.new) kept.new) }
{
    let mut start = start;
    match run_plain(&mut start, steps.number(), out) {
        RunEnd::WriteFault => Status::WriteFault,
        end => {
            *kept = Some(start.into_state());
            end_status(end)
        }
    }
}

// The status of a run that came to this step.
fn step_status(step: Step) -> Status
    ensures { result ≡ end_status (end_of step) }
{
    match step {
        Step::Went => Status::StepsUsed,
        Step::Halted => Status::Done,
        Step::Failed(_, _) => Status::MachineFailed,
    }
}

// Runs a load, writes the totals of the run, and hands the machine over where they were written.
fn give_load<S: Sink>(
    start: Start,
    load: Workload,
    steps: u64,
    out: &mut S,
    kept: &mut Option<LcmState>,
) -> Status
    requires fresh { start.state.count ≡ 0 }
    requires goes { start.state.end ≡ None }
    requires count { steps ≤ 2 ^ 63 }
    ensures { (files : _) → GivesAnswer stk (outside files (S.seen out.old) kept.old)
        (ran start steps (Totals load)) result (outside files (S.seen out.new) kept.new) }
{
    let mut start = start;
    let run = run_counted(&mut start, steps);
    let line = totals(load, run, start.state());
    match out.write(line.as_bytes()) {
        Ok(()) => {
            *kept = Some(start.into_state());
            step_status(run.last)
        }
        Err(_) => Status::WriteFault,
    }
}

// Runs the overlay of a start, and writes the text of the run.
fn give_trace<S: Sink>(start: &Start, overlay: Overlay, steps: Steps, out: &mut S) -> Status
    requires { IsOverlayOf start.now overlay }
    ensures { (files : _) (kept : _) → GivesAnswer stk (outside files (S.seen out.old) kept)
        (ready_answer (ready.Trace start.now overlay steps)) result (outside files (S.seen out.new) kept) }
{
    let mut overlay = overlay;
    end_status(run_overlay(&mut overlay, start, steps.number(), out))
}

// Puts the file, and then writes `ok`.
fn give_file<F: Files, S: Sink>(
    name: &FileName<'_>,
    bytes: &Items<u8>,
    files: &mut F,
    out: &mut S,
) -> Status
    ensures { (kept : _) → GivesAnswer stk (outside (F.seen files.old) (S.seen out.old) kept)
        (ready_answer (ready.Put name.now bytes.now)) result
        (outside (F.seen files.new) (S.seen out.new) kept) }
{
    match files.put(name.as_str(), bytes.as_slice()) {
        Ok(()) => tell(out, "ok\n", Status::Done),
        Err(_) => Status::WriteFault,
    }
}

// Writes a text line by line, and answers the status, or WriteFault where the sink fails.
fn give_text<S: Sink>(text: &Items<u8>, status: Status, out: &mut S) -> Status
    ensures { WritesOrFails stk (S.seen out.old) text.now status result (S.seen out.new) }
{
    match write_lines(out, text.as_slice()) {
        Ok(()) => status,
        Err(_) => Status::WriteFault,
    }
}

fn meaning_status(end: End) -> Status
    ensures { result ≡ meaning_status end }
{
    match end {
        End::Halt(_) | End::Waiting => Status::Done,
        End::Fail => Status::MachineFailed,
        End::OutOfFuel => Status::StepsUsed,
    }
}

// Writes the text of a meaning.
fn give_meaning<S: Sink>(meant: &Meaning, out: &mut S) -> Status
    ensures { WritesOrFails stk (S.seen out.old) meant.now.text (meaning_status meant.now.end) result
        (S.seen out.new) }
{
    give_text(&meant.text, meaning_status(meant.end), out)
}

// Debugs from a start by a script, and writes the replies; or memory is refused before the first.
fn give_debug<S: Sink>(alloc: Global, start: Start, script: &Script, out: &mut S) -> Status
    requires fresh { start.state.count ≡ 0 }
    requires goes { start.state.end ≡ None }
    ensures { (files : _) (kept : _) → GivesOrNothing stk (outside files (S.seen out.old) kept)
        (ready_answer (ready.Debug start script.now)) result (outside files (S.seen out.new) kept) }
{
    match debug(alloc, start, script, out) {
        Ok(()) => Status::Done,
        Err(DebugFault::WriteFault) => Status::WriteFault,
        Err(DebugFault::NoMemory) => Status::NoMemory,
    }
}

// Does what is left to do, and tells of it.
fn give<F: Files, S: Sink>(
    alloc: Global,
    ready: ReadyTask<'_>,
    files: &mut F,
    out: &mut S,
    kept: &mut Option<LcmState>,
) -> Status
    requires { IsReady ready }
    ensures { GivesOrNothing stk (outside (F.seen files.old) (S.seen out.old) kept.old)
        (ready_answer ready.entry) result (outside (F.seen files.new) (S.seen out.new) kept.new) }
{
    match ready {
        ReadyTask::Run(start, steps) => give_run(start, steps, out, kept),
        ReadyTask::Generate(start, load) => give_load(start, load, load_steps(), out, kept),
        ReadyTask::Debug(start, script) => give_debug(alloc, start, &script, out),
        ReadyTask::Trace(start, overlay, steps) => give_trace(&start, overlay, steps, out),
        ReadyTask::Put(name, bytes) => give_file(&name, &bytes, files, out),
        ReadyTask::Write(text) => give_text(&text, Status::Done, out),
        ReadyTask::Tell(meant) => give_meaning(&meant, out),
        ReadyTask::Say => tell(out, "ok\n", Status::Done),
    }
}

// Tells of a refusal.
fn refuse<S: Sink>(why: Refusal, out: &mut S) -> Status
    ensures { (files : _) (kept : _) → GivesAnswer stk (outside files (S.seen out.old) kept) (refused why)
        result (outside files (S.seen out.new) kept) }
{
    tell(out, refusal_line(why).as_str(), refusal_status(why))
}

// Reads what the words ask for.
fn ready_in<'a, F: Files>(
    alloc: Global,
    words: &'a [String],
    files: &mut F,
) -> Result<ReadyTask<'a>, Stop>
    ensures { FollowsTask (plan_in (asked_in (texts words.now))) (F.seen files.old) result
        (F.seen files.new) }
{
    match command_of(alloc, words) {
        Ok(command) => ready_of(alloc, files, command),
        Err(WordsFault::Usage) => Err(Stop::Refused(Refusal::Usage)),
        Err(WordsFault::NoMemory) => Err(Stop::NoMemory),
    }
}

fn answer<F: Files, S: Sink>(
    alloc: Global,
    words: &[String],
    files: &mut F,
    out: &mut S,
    kept: &mut Option<LcmState>,
) -> Status
    ensures { Answers stk (plan_in (asked_in (texts words.now)))
        (outside (F.seen files.old) (S.seen out.old) kept.old)
        result (outside (F.seen files.new) (S.seen out.new) kept.new) }
{
    match ready_in(alloc, words, files) {
        Ok(ready) => give(alloc, ready, files, out, kept),
        Err(Stop::Refused(why)) => refuse(why, out),
        Err(Stop::NoMemory) => Status::NoMemory,
    }
}

/// All that the program does, with the words after its own name.
///
/// `run`, with 1 to 16 parts `u:NAME` or `t:NAME` of names that end in `.stc`, `.asm` or `.prc`, or
/// `t:NAME.tok`, reads the parts in their order, each with its form (a source is compiled) and the rules of
/// its mark, links them with a stack of `--stack` words, runs the machine that they start for `--steps`
/// steps or up to its end, and writes a line for each event and the end line. In place of parts it
/// takes one image, `NAME.img`, checks and links its parts anew, and runs them so. Where all of that
/// was written, `kept` holds the machine as the run left it; in every other case, and after any other
/// action, it is as before. `trace` does the same with the overlay of that start, for as long as the
/// weight of its steps is at most `--steps`. `reach` takes what `run` takes, and writes what each part
/// of that start can read, write, run and seal by. `debug` takes them with the script of `--feed`, and
/// writes the replies of a debugger to its commands. `link` reads and links parts as `run` does, puts
/// their image under the name of `--out`, and then writes `ok`. `check` reads one part in the same way,
/// `u:NAME` or, by the rules of trusted parts, `t:NAME`, and writes `ok`. `asm` reads one part, of
/// either mark and a name in `.asm`, `compile` one of a name in `.prc`, or `t:NAME.tok`; both ask no rules,
/// put its component's file under the name of `--out`, and then write `ok`. `dis` reads one part of
/// either mark, asks no rules, and writes its text. `mean` reads 1 to 16 sources `t:NAME.prc` or
/// `t:NAME.tok` and the feed of `--feed`, and writes what the sources mean under that feed with a stack
/// of `--stack` words and `--steps` ticks of fuel: a line for each event, and the end line. `generate`
/// makes a load from `--seed`, links it as `run` links parts, runs it for 10,000,000 instructions or up
/// to its end, and writes its numbers, the word in a0 and how many calls `run` would tell of, or the
/// end line where it didn't halt; `kept` is as after `run`. `audit` reads the text of `--feed`, and
/// writes `ok` where it is a trace of a run in which calls and returns are bracketed; else it tells the
/// first line that spoils it. `erase` reads a source `t:NAME.tok`, puts the text of what is left of it
/// without its tokens under the name of `--out`, and then writes `ok`. Any other words write `usage`.
pub fn stk_main<F: Files, S: Sink>(
    alloc: Global,
    words: &Vec<String>,
    files: &mut F,
    out: &mut S,
    kept: &mut Option<LcmState>,
) -> Status
    // The answer that the call is due, with its file put, its text written and its machine handed over;
    // the cause of its status; and if the files tell what they hold and nothing fails, that answer alone,
    // unless memory is refused.
    ensures promised { Promised (asked_in (texts words.now.items))
        (outside (F.seen files.old) (S.seen out.old) kept.old)
        result (outside (F.seen files.new) (S.seen out.new) kept.new) }

    // Each clause below that speaks of what was read (`OfBytes`) holds of the bytes of whatever answer
    // explains the call, as `promised` has one: the parts, modules and texts that it names are of these, file
    // by file. So all of them speak of the same bytes. `generated` has no `OfBytes`: it reads no file.

    // What a run writes, answers and hands over, and what holds of its start. Code outside is confined: it
    // touches nothing of a trusted part, and enters one at an export or a return point alone. Calls are kept:
    // each ret line closes the newest open call, whose range only its own return uses till then. Their frames
    // are secret: whatever is in them, the machine runs the same till then. And the start has the headline:
    // the plain machine agrees with the overlay, returns are bracketed, frames are private. The text passes
    // an audit.
    ensures ran { (l : Linked) (steps : ℕ)
        → asked_in (texts words.now.items) ≡ Some (Links l (link_deed.Run steps))
        → IsRunStatus result → OfBytes (RunGiven l steps) (asked_in (texts words.now.items))
        (outside (F.seen files.old) (S.seen out.old) kept.old)
        result (outside (F.seen files.new) (S.seen out.new) kept.new) }

    // Where every trusted part of a run is a source: what the run's lines tell is what the sources mean,
    // with the events that code outside caused as input, whatever that code is; and wherever their code lets
    // go of control, code outside is shown nothing else. Also where the sink failed.
    ensures sourced { (words_of : List PartWord) (stack steps : ℕ)
        → asked_in (texts words.now.items)
        ≡ Some (Links (what.Parts words_of stack) (link_deed.Run steps))
        → AllSources words_of → OfBytes (SourcesTold words_of stack steps) (asked_in (texts words.now.items))
        (outside (F.seen files.old) (S.seen out.old) kept.old)
        result (outside (F.seen files.new) (S.seen out.new) kept.new) }

    // The same of every run, of words of whatever form or of an image, and of whatever modules its trusted
    // parts are the compiled components: they mean what its lines tell, and show nothing else.
    ensures compiled { (l : Linked) (steps : ℕ)
        → asked_in (texts words.now.items) ≡ Some (Links l (link_deed.Run steps))
        → OfBytes (ModulesTold l steps) (asked_in (texts words.now.items))
        (outside (F.seen files.old) (S.seen out.old) kept.old)
        result (outside (F.seen files.new) (S.seen out.new) kept.new) }

    // What a run of the overlay writes and answers: its lines are those of a plain run.
    ensures traced { (l : Linked) (steps : ℕ)
        → asked_in (texts words.now.items) ≡ Some (Links l (link_deed.Trace steps))
        → IsRunStatus result → OfBytes (TraceGiven l steps) (asked_in (texts words.now.items))
        (outside (F.seen files.old) (S.seen out.old) kept.old)
        result (outside (F.seen files.new) (S.seen out.new) kept.new) }

    // What `reach` writes: what each part of such a start can reach. Up to and with its first jump under a
    // seal that isn't its own, a part's runs stay within that, and what the cells hold that it says can't be
    // read doesn't influence them.
    ensures reached { (l : Linked)
        → asked_in (texts words.now.items) ≡ Some (Links l link_deed.Reach)
        → IsRunStatus result → OfBytes (ReachGiven l) (asked_in (texts words.now.items))
        (outside (F.seen files.old) (S.seen out.old) kept.old)
        result (outside (F.seen files.new) (S.seen out.new) kept.new) }

    // What `debug` writes: the replies to a script's commands. A state that they tell of is one of the run.
    ensures debugged { (l : Linked) (script : List ℕ)
        → asked_in (texts words.now.items) ≡ Some (asked.Debug l script)
        → IsRunStatus result → OfBytes (DebugGiven l script) (asked_in (texts words.now.items))
        (outside (F.seen files.old) (S.seen out.old) kept.old)
        result (outside (F.seen files.new) (S.seen out.new) kept.new) }

    // What `audit` answers: whether the text is a trace of a run, or else the first line that spoils it.
    ensures audited { (name : List ℕ) → asked_in (texts words.now.items) ≡ Some (asked.Audit name)
        → OfBytes (AuditTold name) (asked_in (texts words.now.items))
        (outside (F.seen files.old) (S.seen out.old) kept.old)
        result (outside (F.seen files.new) (S.seen out.new) kept.new) }

    // Where the sink failed at a run's text, or at a trace's, the same holds of the start.
    ensures run_cut { (l : Linked) (steps : ℕ)
        → asked_in (texts words.now.items) ≡ Some (Links l (link_deed.Run steps))
        → result ≡ Status.WriteFault → OfBytes (λ read old status new. RunCut l steps read old new)
        (asked_in (texts words.now.items))
        (outside (F.seen files.old) (S.seen out.old) kept.old)
        result (outside (F.seen files.new) (S.seen out.new) kept.new) }
    ensures trace_cut { (l : Linked) (steps : ℕ)
        → asked_in (texts words.now.items) ≡ Some (Links l (link_deed.Trace steps))
        → result ≡ Status.WriteFault → OfBytes (λ read old status new. TraceCut l steps read old new)
        (asked_in (texts words.now.items))
        (outside (F.seen files.old) (S.seen out.old) kept.old)
        result (outside (F.seen files.new) (S.seen out.new) kept.new) }

    // What `mean` writes and answers: the meaning of the modules that the words name, under the feed.
    ensures meant { (words_of : List PartWord) (size fuel : ℕ) (feed : List ℕ)
        → asked_in (texts words.now.items) ≡ Some (Mean words_of size fuel feed)
        → IsRunStatus result → OfBytes (MeaningGiven words_of size fuel feed)
        (asked_in (texts words.now.items))
        (outside (F.seen files.old) (S.seen out.old) kept.old)
        result (outside (F.seen files.new) (S.seen out.new) kept.new) }

    // What a generated load's run writes, answers and hands over. The same holds of its start.
    ensures generated { (seed : ℕ) → asked_in (texts words.now.items) ≡ Some (Generate seed)
        → IsRunStatus result → LoadGiven seed
        (outside (F.seen files.old) (S.seen out.old) kept.old)
        result (outside (F.seen files.new) (S.seen out.new) kept.new) }

    // Words that are no command are refused, unless the sink fails or memory is refused.
    ensures usage { asked_in (texts words.now.items) ≡ None
        → (result ≡ Status.Usage) ⊎ ((result ≡ Status.WriteFault) ⊎ (result ≡ Status.NoMemory)) }

    // No file is changed but that of `--out`, and that one only where the status is Done or WriteFault.
    ensures files_stay { StayAt (asked_in (texts words.now.items)) (F.seen files.old) result
        (F.seen files.new) }

    // If no put failed, the file of `--out` is as before or has the bytes of the component, the image or the
    // module. Files count no puts that go, so it isn't said that there was one alone.
    ensures put_whole { let asked = asked_in (texts words.now.items) in
        OfBytes (λ read old status new. PutsWhole asked read old.files new.files) asked
        (outside (F.seen files.old) (S.seen out.old) kept.old)
        result (outside (F.seen files.new) (S.seen out.new) kept.new) }
{
    the_headline();
    open_calls_are_kept();
    frames_are_secret();
    code_outside_is_confined();
    reports_bound_runs();
    reports_bound_influence();
    commands_remember();
    commands_fit();
    runs_pass();
    a_start_has_one_overlay();
    sources_are_modules();
    runs_mean();
    sources_show_nothing_else();
    stacks_begin();
    texts_tell_items();
    linked_modules_keep_rules();
    answer(alloc, words.as_slice(), files, out, kept)
}
