//! What runs of linked sources mean. These functions do nothing; their contracts are the laws.
ghost use Rattle.source_starts.specs.Sources.{SourcesDoWhatTheyMean, SourcesLeaveNothing};
ghost use Rattle.source_starts.specs.PlainWords.{PlainRunsTellWords};
ghost use Rattle.source_starts.specs.Words.{SourcesTellWords};
ghost use Rattle.source_starts.specs.Named.{SlotsNamed};
ghost use Rattle.source_starts.specs.PlainSecrets.{PlainRunsLeaveNothing};
ghost use Rattle.source_starts.specs.PlainWiped.{PlainRunsWipe};
ghost use Rattle.source_starts.specs.Shown.{SourcesShowNothingElse};
ghost use Rattle.source_starts.specs.Wiped.{WipedCellsAreTold};
ghost use Rattle.source_starts.specs.RunMeans.{CutsShow, RunsMean, StacksBegin};

use headline::laws::the_headline;
use overlay_machine::laws::{linked_starts_agree, starts_begin};
use run_lines::laws::{cuts_are_greatest, lines_are_a_feed, pairs_are_the_overlays, steps_tell_so};

/// A run of linked sources does what they mean, with what code outside causes as input: a robust trace
/// property.
///
/// Let the trusted parts of a link be the components of some modules, in their order. Then at each matched
/// point of the overlay's run from its start: if code that isn't trusted runs, the meaning of the modules
/// waits, and has told the run's outgoing events; if trusted code is about to halt or to fail, the meaning
/// ends so, with those events; if it goes on, the meaning's events begin with those; and the meaning spends a
/// tick at least for each 200 instructions of the steps that began in trusted code. Each procedure that left
/// gave an integer. The meaning is that of the items that came in so far, with the whole stack of the link.
pub fn sources_mean()
    ensures { SourcesDoWhatTheyMean }
{
    starts_begin();
    pairs_are_the_overlays();
}

/// What a run's lines tell of its crossings is what the overlay's steps show up to the cut point.
///
/// The trusted weight of the cut point is that of the steps that began in trusted code.
pub fn cuts_show()
    ensures { CutsShow }
{
    the_headline();
    lines_are_a_feed();
    steps_tell_so();
    cuts_are_greatest();
}

/// After any number of instructions the plain run of linked sources has done what they mean, by its lines.
///
/// Let the plain run have made so many instructions, and take the events and items that its lines tell. At
/// the cut point, the greatest matched point up to there: if code that isn't trusted runs, the meaning of
/// these items waits, with these events; if trusted code runs, its events begin with these; and if the run
/// has halted or failed from there, the meaning ends so, with these events and with the value of the run's
/// a0. Each procedure that left gave an integer. The meaning spends a tick at least for each 200 instructions
/// of the steps that began in trusted code.
pub fn runs_mean()
    ensures { RunsMean }
{
    sources_mean();
    the_headline();
    cuts_are_greatest();
    cuts_show();
}

/// When linked sources let go, the crossing tells all registers; cells in reach are as code outside left
/// them, or 0 on the stack.
///
/// Let the trusted parts of a link be the components of some modules, in their order. At each point of the
/// overlay's run at which a step that began in trusted code arrives outside it, that step writes a `call out`
/// or a `leave` line, and all registers are told by it and by the pair that it opens; and each cell that code
/// outside could reach is as it was when code outside ran last, or is a cell of the stack that holds 0.
pub fn sources_leave_nothing()
    ensures { SourcesLeaveNothing }
{
    starts_begin();
    pairs_are_the_overlays();
}

/// What leaves linked sources is what their refined meaning tells: whom they call, with which words, from
/// where.
///
/// Let the trusted parts of a link be the components of some modules, in their order. At each point of the
/// overlay's run from its start, under every large enough fuel, the refined meaning of the items that came in
/// so far tells first what has left, and where code outside runs it tells no more: of each call the pair by
/// which it goes, what each argument register holds, and where its frame begins; of each procedure that left
/// the pair by which it went, the stack that it gave back, and the calls that are open. A pair of an import
/// or of an own procedure is the one that stands in the part's data at the start, one that came from outside
/// is that of the argument registers after its item, what is given back is what was handed over with the
/// item of the entry, and the calls that are open are those that were open there.
pub fn sources_tell_words()
    ensures { SourcesTellWords }
{
    starts_begin();
    pairs_are_the_overlays();
}

/// An import's pair is that of the export that it names, and an own procedure's that of its export.
///
/// Let the trusted parts of a link be the components of some modules, in their order. Then the pair of an
/// import of a module, which is the one that stands in its part's data at the start, is that of the export of
/// the import's name in the linked part of its part's name; and the pair of an own procedure is that of the
/// export of its name in the module's own part.
pub fn slots_are_named()
    ensures { SlotsNamed }
{
    starts_begin();
}

/// When linked sources let go, the cells of stk from the one that their refined meaning tells on hold 0;
/// others in reach are unchanged.
///
/// Let the trusted parts of a link be the components of some modules, in their order, and let a run of the
/// overlay from its start have shown so much and got so much up to a point at which the next step, from
/// trusted code, arrives outside it. Under every large enough fuel the refined meaning of the items that came
/// in has an event of the next number, and it tells of the lowest wiped cell. After the step stk is the stack
/// up to an end, its cells from the lowest wiped one to that end hold 0, and each other cell that is no
/// trusted part's own is as it was when code outside ran last, or at the start if it hasn't run.
pub fn wiped_cells_are_told()
    ensures { WipedCellsAreTold }
{
    starts_begin();
    pairs_are_the_overlays();
}

/// On the plain machine each word in reach when sources let go was in reach when code outside last ran, or is
/// 0 on the stack.
///
/// After so many instructions code outside ran last, or the run began in trusted code, and after so many it
/// has let go of control. Then the registers are those that `sources_leave_nothing` tells, and each word in
/// reach, which is that of a cell that is no trusted part's own and in no frame of an open call, was in reach
/// after the first ones, in that cell, or is 0 in a cell of the stack. So no word of a frame whose call was
/// closed since stays in reach.
pub fn plain_runs_leave_nothing()
    ensures { PlainRunsLeaveNothing }
{
    starts_begin();
    linked_starts_agree();
    the_headline();
    sources_leave_nothing();
}

/// On the plain machine the cells wiped when sources let go are those that their refined meaning tells.
///
/// After so many instructions code outside ran last, or the run began in trusted code, and after so many it
/// has let go of control. Then stk is the stack up to an end, its cells from the lowest wiped one, of which
/// the refined meaning tells, to that end hold 0, and each word in reach in another cell was in reach there
/// after the first ones.
pub fn plain_runs_wipe()
    ensures { PlainRunsWipe }
{
    starts_begin();
    linked_starts_agree();
    the_headline();
    wiped_cells_are_told();
}

/// On the plain machine each call out of sources has the words that their refined meaning tells.
///
/// Let a step of the overlay be a call out, before which so much had left and come. Then after so many
/// instructions the plain machine's registers are the overlay's words, flattened; and under every large
/// enough fuel the refined meaning's event of that number is this call: it tells the base of its frame, where
/// the pair came from that stands in c1 and c2, and what stands in the argument registers.
pub fn plain_runs_tell_words()
    ensures { PlainRunsTellWords }
{
    the_headline();
    sources_tell_words();
}

/// Code outside is shown nothing of linked sources but what their refined meaning tells.
///
/// All of this in one, wherever their code lets go of control: `sources_leave_nothing`, `sources_tell_words`,
/// `slots_are_named` and the laws on plain runs.
pub fn sources_show_nothing_else()
    ensures { SourcesShowNothingElse }
{
    sources_leave_nothing();
    plain_runs_leave_nothing();
    plain_runs_wipe();
    sources_tell_words();
    slots_are_named();
    plain_runs_tell_words();
}

/// The stack of linked sources begins where the first of them says.
pub fn stacks_begin()
    ensures { StacksBegin }
{
    starts_begin();
}
