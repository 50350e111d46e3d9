//! The headline, and the laws that it rests on. These functions do nothing; their contracts are the laws.
ghost use Rattle.std.specs.Prelude.{ℕ, List};
ghost use Rattle.cap_words.specs.declared.Word.{Word};
ghost use Rattle.lcm_machine.specs.Maps.{State};
ghost use Rattle.linked_starts.specs.Parts.{PartSeen};
ghost use Rattle.overlay_machine.specs.State.{OState};
ghost use Rattle.overlay_machine.specs.Seen.{OverlaySeen};
ghost use Rattle.overlay_machine.specs.Link.{Link};
ghost use Rattle.overlay_machine.specs.Linked.{IsLink};
ghost use Rattle.overlay_machine.specs.Invariant.{Invariant};
ghost use Rattle.overlay_machine.specs.Keeping.{HoldsFor};
ghost use Rattle.headline.specs.Brackets.{LinesAreBracketed, TraceIsBracketed, CallsArePrivate};
ghost use Rattle.headline.specs.Headline.{Headline, HeadlineHolds, CallThere};
ghost use Rattle.headline.specs.OpenCalls.{OpenCallsAreKept, CallsAreKept, UseThere};
ghost use Rattle.headline.specs.Secrecy.{OpenFramesAreSecret, SecretThere};
ghost use Rattle.headline.specs.Alike.{LinkedLinesAgree, StartLinesAgree, TracesAlike};

use overlay_machine::laws::{
    a_halt_weighs_one, a_start_has_one_overlay, linked_starts_agree, starts_begin,
};
use run_lines::laws::traces_tell_steps;

/// If the overlay's invariant holds, each ret line closes the newest open call line, and matches it.
///
/// The ret line has the call line's part, site, base, last and words. A call line is open until a ret line
/// closes it. The lines of a run of the overlay so lead from the frames that are open at first to those that
/// are open then, and so do those that a trace writes.
pub fn lines_are_bracketed()
    ensures steps { (g : Link) (o : OState) (t : State Word) → IsLink g → Invariant g o t
        → LinesAreBracketed g.layout o }
    ensures traces { (parts : List PartSeen) (size : ℕ) (o : OverlaySeen) (t : State Word)
        → HoldsFor parts size o t → TraceIsBracketed o }
{}

/// If the overlay's invariant holds, no plain instruction touches an open call line's range, nor does the
/// `xjmp` back, up to each matched point.
///
/// From the plain state after the call's `xjmp` on, that is so up to each matched point at which no ret line
/// has closed the call line.
pub fn call_lines_are_private()
    ensures { (g : Link) (o : OState) (t : State Word) → IsLink g → Invariant g o t
        → CallsArePrivate g.layout o t }
{}

/// From every linked start, at each matched point the plain machine halts, fails or goes on as the overlay
/// does, with the same lines, brackets and private frames: simulation.
///
/// For all trusted parts that keep the rules and every untrusted part that links with them: each return to
/// trusted code closes the newest open call; and up to each matched point before that, and at the `xjmp` of
/// the return, no instruction touches that call's private frame.
///
/// There are such parts: it holds of some, one of them trusted with a site and an entry and one not, whose
/// run calls code that isn't trusted and comes back, with the lines of both.
pub fn the_headline()
    ensures holds { HeadlineHolds }
    ensures of_some { (made : CallThere) × Headline made.there.start }
{
    starts_begin();
    a_start_has_one_overlay();
    linked_starts_agree();
    a_halt_weighs_one();
    traces_tell_steps();
    start_lines_agree();
    lines_are_bracketed();
    call_lines_are_private();
}

/// From every linked start, each ret line closes the newest open call, and until then no instruction touches
/// its range but two of its own return: well-bracketed calls.
///
/// The ret line has the call's part, site, base, last and words. While a call is open, no instruction touches
/// an address of its range, whether it is inside a sequence, fails, or is the last before the run was cut
/// off; but for two that touch the first address alone: those of the return of the call's own site that load
/// the call's first word and wipe it, after an `xjmp` that opened the pair that the call sealed.
///
/// There is such a use: in the run of the parts of the headline, which calls and comes back.
pub fn open_calls_are_kept()
    ensures kept { OpenCallsAreKept }
    ensures of_a_return { (made : CallThere) × CallsAreKept made.there.start }
    ensures of_a_use { UseThere }
{
    starts_begin();
    a_start_has_one_overlay();
    linked_starts_agree();
    a_halt_weighs_one();
    start_lines_agree();
    lines_are_bracketed();
    the_headline();
}

/// From every linked start, while calls stay open and their own returns don't use their ranges, the machine
/// runs the same whatever these hold: noninterference.
///
/// Let some calls be open after some instructions of a run, and let their ranges hold any other words, or
/// none. Then the plain machine goes on just the same: it ends alike, makes as many instructions, has the
/// same words in all registers and all other cells, and writes the same lines; and the words of the ranges
/// stay as they were, in the one run and in the other. So it is for any number of instructions, as long as
/// these calls stay open and none of the instructions is one of the two of the own return of one of them that
/// read its frame's first word and wipe it.
pub fn frames_are_secret()
    ensures secret { OpenFramesAreSecret }
    ensures of_some { SecretThere }
{
    starts_begin();
    a_start_has_one_overlay();
    linked_starts_agree();
    a_halt_weighs_one();
    start_lines_agree();
    lines_are_bracketed();
    open_calls_are_kept();
}

/// If the overlay's invariant holds, the plain run writes the lines of the overlay's steps.
///
/// At a matched point the plain run has written the lines of the steps up to there. After it, fewer
/// instructions than the next step weighs write none; and if that step ends the overlay, there are no more
/// lines at all.
pub fn linked_lines_agree()
    ensures { LinkedLinesAgree }
{}

/// From every linked start the plain run writes the overlay's lines, and a trace those of as many
/// instructions.
///
/// The overlay's lines are those of its steps; a trace has the event lines alone.
pub fn start_lines_agree()
    ensures agree { StartLinesAgree }
    ensures traces { TracesAlike }
{
    starts_begin();
    a_start_has_one_overlay();
    linked_lines_agree();
}
