//! A plain run, with its lines and its end line.
ghost use Rattle.std.specs.Prelude.{◌≡◌, ◌+◌, ◌<◌, ◌≤◌, ◌^◌, length, None, IfOk, false};
ghost use Rattle.std.specs.Prelude.{ℕ, List};
ghost use Rattle.std.specs.List.{list_any};
ghost use Rattle.linked_starts.specs.Parts.{PartSeen};
ghost use Rattle.linked_starts.specs.LinkedStarts.{IsLinkedStart};
ghost use Rattle.headline.specs.Headline.{Headline};
ghost use Rattle.headline.specs.OpenCalls.{CallsAreKept};
ghost use Rattle.outside_io.specs.Writes.{Writes};
ghost use Rattle.lcm_machine.specs.Run.{next_state, plain, answer};
ghost use Rattle.run_lines.specs.Layout.{layout};
ghost use Rattle.run_lines.specs.EndLines.{end_line};
ghost use Rattle.trace_tool.specs.Gaps.{IsGap, AreWithin};
ghost use Rattle.run_lines.specs.Texts.{lines_pieces};
ghost use Rattle.run_lines.specs.Runs.{watching, watched_next, line_next, end_of, Runs, EndsBy};

use crate::end_lines::end_line;
use crate::event::event_after;
use crate::gap::{Gap, gap_around};
use crate::note::{inward_after, noted};
use crate::write::{tell, write};
use headline::laws::{open_calls_are_kept, the_headline};
use lcm_machine::Step;
use linked_starts::Start;
use outside_io::{Failed, Sink};
use run_lines::RunEnd;

// Makes one instruction, and writes its line where it has one.
#[tactic(auto, unfolding(run_lines::specs::Runs::line_next))]
#[inline(never)]
fn noted_turn<S: Sink>(start: &mut Start, inward: &mut bool, out: &mut S) -> Result<Step, Failed>
    requires { start.old.state.count < 2 ^ 63 }
    ensures state { start.new ≡ record start.old { state = next_state start.old.state } }
    ensures inward { let w = watching start.old inward.old in
        inward.new ≡ (watched_next (layout start.old) w).inward }
    ensures answer { IfOk result (λ s. s ≡ answer (next_state start.old.state)) }
    ensures line { let lines = line_next (layout start.old) (watching start.old inward.old) in
        Writes (S.seen out.old) (lines_pieces lines) result (S.seen out.new) }
{
    let note = noted(start);
    let step = start.state_mut().step();
    if step != Step::Went {
        return Ok(step);
    }
    let event = event_after(start, note, *inward);
    *inward = inward_after(note, *inward);
    match tell(start, start.state(), event, out) {
        Ok(()) => Ok(Step::Went),
        Err(fault) => Err(fault),
    }
}

/// Writes a last line, in one piece, and answers the end, or that the write failed.
pub(crate) fn finish<S: Sink>(out: &mut S, line: &str, end: RunEnd) -> RunEnd
    requires { 0 < length line.now }
    ensures { EndsBy (S.seen out.old) line.now end (S.seen out.new) result }
{
    match write(out, line.as_bytes()) {
        Ok(()) => end,
        Err(_) => RunEnd::WriteFault,
    }
}

fn end_of(step: Step) -> RunEnd
    ensures { result ≡ end_of step }
{
    match step {
        Step::Went => RunEnd::Running,
        Step::Halted => RunEnd::Halted,
        Step::Failed(_, _) => RunEnd::Failed,
    }
}

// Writes the end line of a machine that has come to this step.
fn end_run<S: Sink>(start: &Start, step: Step, out: &mut S) -> RunEnd
    requires { step ≡ answer start.now.state }
    ensures { EndsBy (S.seen out.old) (end_line start.now.state) (end_of step) (S.seen out.new) result }
{
    let line = end_line(start.state(), step);
    finish(out, line.as_str(), end_of(step))
}

// Whether a part is trusted: without one there are no events.
fn has_trusted(start: &Start) -> bool
    ensures { result ≡ list_any (λ o. o.trusted) start.now.owners }
{
    start.owners().iter().any(|owner| owner.trusted)
}

// Runs so many instructions, and writes the end line.
fn run_untrusted<S: Sink>(start: &mut Start, steps: u64, out: &mut S) -> RunEnd
    requires untrusted { list_any (λ o. o.trusted) start.old.owners ≡ false }
    requires count { start.old.state.count + steps ≤ 2 ^ 63 }
    ensures { Runs start.old steps (S.seen out.old) start.new (S.seen out.new) result }
{
    let step = start.state_mut().run(steps);
    end_run(start, step, out)
}

// Makes up to so many instructions in a gap, as long as none is an `xjmp`. How many were made, and what
// the last one came to.
fn stretch(start: &mut Start, left: u64, gap: Gap) -> (u64, Step)
    requires { start.old.state.count + left ≤ 2 ^ 63 }
    ensures state { start.new ≡ record start.old { state = plain result.0 start.old.state } }
    ensures most { result.0 ≤ left }
    ensures within { AreWithin gap start.old.state result.0 }
    ensures last { result.1 ≡ answer start.new.state }
{
    start.state_mut().run_within(left, gap.from, gap.to)
}

// This gap where pc stands in it, and else the one around pc.
fn gap_ahead(start: &Start, gap: Gap) -> Gap
    requires { IsGap start.now.sites gap }
    ensures { IsGap start.now.sites result }
{
    if gap.has(start.state().pc_at()) {
        gap
    } else {
        gap_around(start)
    }
}

// Runs so many instructions, and writes the line of each event and the end line. In a gap an instruction
// has no line, unless it is an `xjmp`: so a whole stretch of them is made with nothing looked up, and then
// one that may have a line.
fn run_noted<S: Sink>(start: &mut Start, steps: u64, out: &mut S) -> RunEnd
    requires fresh { start.old.state.end ≡ None }
    requires count { start.old.state.count + steps ≤ 2 ^ 63 }
    ensures { Runs start.old steps (S.seen out.old) start.new (S.seen out.new) result }
{
    let mut inward = false;
    let mut gap = gap_around(start);
    let mut done = 0;
    'turns: loop {
        let (made, last) = stretch(start, steps - done, gap);
        done += made;
        if last != Step::Went {
            return end_run(start, last, out);
        }
        if done == steps {
            return end_run(start, Step::Went, out);
        }
        match noted_turn(start, &mut inward, out) {
            Ok(step) => {
                if step != Step::Went {
                    return end_run(start, step, out);
                }
            }
            Err(Failed) => return RunEnd::WriteFault,
        }
        done += 1;
        gap = gap_ahead(start, gap);
    }
}

/// Runs the machine of a start for so many instructions, or up to its end, and writes the line of
/// each event and the end line. It needs no memory.
///
/// The machine hasn't ended before. Only its state changes. WriteFault comes only of a write that
/// failed: the run stops there, and a front of the whole text stands.
///
/// Of a linked start the headline holds, which is said of what this writes and of the states that it
/// goes through; and so does what is told of the plain machine alone: its calls are kept.
pub fn run_plain<S: Sink>(start: &mut Start, steps: u64, out: &mut S) -> RunEnd
    requires fresh { start.old.state.end ≡ None }
    requires count { start.old.state.count + steps ≤ 2 ^ 63 }
    ensures runs { Runs start.old steps (S.seen out.old) start.new (S.seen out.new) result }
    ensures headline { (parts : List PartSeen) (size : ℕ) → IsLinkedStart parts size start.old
        → Headline start.old }
    ensures calls { (parts : List PartSeen) (size : ℕ) → IsLinkedStart parts size start.old
        → CallsAreKept start.old }
{
    the_headline();
    open_calls_are_kept();
    if has_trusted(start) {
        run_noted(start, steps, out)
    } else {
        run_untrusted(start, steps, out)
    }
}
