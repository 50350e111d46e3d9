//! Laws of the machine's definitions. The functions do nothing: what is said stands in their clauses.
ghost use Rattle.std.specs.Prelude.{ℕ, ◌≤◌, ◌↔◌, List};
ghost use Rattle.lcm_machine.specs.Maps.{State};
ghost use Rattle.lcm_machine.specs.Regions.{Region, IsLinearAt, CoveredOnce};
ghost use Rattle.lcm_machine.specs.Counts.{cover_count};
ghost use Rattle.lcm_machine.specs.Closed.{StepsKeepClosed};
ghost use Rattle.lcm_machine.specs.Acts.{DoesAsItMay, ChangesNoOther, WritesWhereItMay};
ghost use Rattle.lcm_machine.specs.Fitting.{StepsKeepFitting, RunsKeepFitting};
ghost use Rattle.lcm_machine.specs.Touched.{RunsAreQuiet};
ghost use Rattle.lcm_machine.specs.Blind.{StepsAreBlind, RunsAreBlind};
ghost use Rattle.lcm_machine.specs.Mapped.{RowCommutes, FetchCommutes, StepCommutes};

use cap_words::MachineWord;

/// A map of words that keeps what the table reads commutes with each instruction, fetch and step.
///
/// Let each word of a state be mapped to a word of another kind with the same face, and let plain words be
/// mapped to themselves. Then an instruction, a fetch and a whole step do the same on the mapped state: they
/// end alike, and where they go on the new state is again the mapped one. The mapped state may have further
/// cells beside, if the address that is read has none of them. For `xjmp` its two words must also show the
/// same content.
pub fn row_commutes<W: MachineWord, V: MachineWord>()
    ensures row { RowCommutes W.look W.plain V.look V.plain }
    ensures fetch { FetchCommutes W.look V.look }
    ensures step { StepCommutes W.look W.plain V.look V.plain }
{}

/// No linear address is held twice if and only if each counts at most once over registers and cells.
///
/// A register or cell counts if it has, as its word or under its seal, a memory capability over the address.
pub fn covered_once_counts<W: MachineWord>()
    ensures { (rs : List Region) (s : State W)
        → CoveredOnce W.look rs s ↔ ((a : ℕ) → IsLinearAt rs a → cover_count W.look s a ≤ 1) }
{}

/// A step keeps a property of words that no instruction breaks, if what an `xjmp` opens has it.
///
/// The property is closed: integers have it, and so has each word that an instruction makes of words with it.
/// Cells may be set apart, of which nothing is said, if the step's instruction doesn't use them.
pub fn steps_keep_closed<W: MachineWord>()
    ensures { StepsKeepClosed W.look W.plain }
{}

/// Registers' words allow what a step does, and it changes only cells that it may write.
///
/// They allow what it fetches, loads from, stores to and empties, and what it seals by. It changes no cell
/// but those that it stores to or empties.
pub fn steps_do_as_they_may<W: MachineWord>()
    ensures does { (s : State W) → DoesAsItMay W.look W.plain s }
    ensures changes { (s : State W) → ChangesNoOther W.look W.plain s }
    ensures writes { (s : State W) → WritesWhereItMay W.look W.plain s }
{}

/// If all words of a plain machine have spellings, so have all after any number of steps.
///
/// Such a word has integers and addresses of 64 bits, ranges in order, and seals of the space; so it has a
/// spelling.
pub fn steps_keep_fitting()
    ensures step { StepsKeepFitting }
    ensures runs { RunsKeepFitting }
{}

/// A run that goes on without a cell doesn't touch that cell if it is there.
///
/// No step of it fetches from it, loads from it or stores to it.
pub fn runs_are_quiet<W: MachineWord>()
    ensures { RunsAreQuiet W.look W.plain }
{}

/// A step or run that touches none of some cells does the same with other words in these, or without them:
/// noninterference.
///
/// Take two states that are the same but for some cells, of which the second state has none that the first
/// lacks. If the step touches none of these cells from the first, it ends the same from both, and leads to
/// two states that are again the same but for these cells, which are in each as they were. So does a run of
/// which no step from the first touches one.
pub fn steps_are_blind<W: MachineWord>()
    ensures step { StepsAreBlind W.look W.plain }
    ensures runs { RunsAreBlind W.look W.plain }
{}
