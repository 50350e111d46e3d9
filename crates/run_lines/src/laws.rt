//! What holds of the lines of runs. These functions do nothing; their contracts are the laws.
ghost use Rattle.overlay_machine.specs.Seen.{OverlaySeen};
ghost use Rattle.run_lines.specs.Told.{TracesSteps};
ghost use Rattle.run_lines.specs.Cuts.{CutsAreGreatest, StopsAreCuts};
ghost use Rattle.run_lines.specs.Pairs.{PairsAreOwn, PassesAreOwn};
ghost use Rattle.run_lines.specs.StepLines.{StepsTellSo, RunsAreOfSteps, ToldAreOfSteps};
ghost use Rattle.run_lines.specs.Feed.{OutsJoin, ItemsJoin, EntriesAreItems};
ghost use Rattle.run_lines.specs.Fits.{RunsFit, StartLinesFit};

/// A trace's lines are those of the overlay's steps up to the greatest matched point within its limit.
pub fn traces_tell_steps()
    ensures { (o : OverlaySeen) → TracesSteps o }
{}

/// The cut point of n instructions is the greatest matched point that is at most n.
///
/// It is where the overlay's steps stop, if no more instructions are wanted.
pub fn cuts_are_greatest()
    ensures steps { CutsAreGreatest }
    ensures matched { StopsAreCuts }
{}

/// All words of a run from a linked start, and of its lines, have spellings.
///
/// They are words of a machine: integers and addresses of 64 bits, ranges in order, and seals that there are.
/// Names in lines are names, and numbers have 32 bits.
pub fn lines_fit()
    ensures runs { RunsFit }
    ensures lines { StartLinesFit }
{}

/// What a `pass` line tells of plain words is what the overlay's own words say.
///
/// That is so of any two words that untrusted code may hold. There a RetCode counts as a sealed word that
/// isn't linear, with which no `xjmp` of another such word goes, and a RetData as a linear one. So it is of
/// the argument registers at each `enter` line, if the invariant of linked parts holds.
pub fn pairs_are_the_overlays()
    ensures words { PairsAreOwn }
    ensures entries { PassesAreOwn }
{}

/// A step has no line, one, or an `enter` line with its `pass` line; a run's lines are those of its steps.
///
/// The one isn't a `pass` line. So it is of the plain run and of the overlay's.
pub fn steps_tell_so()
    ensures step { StepsTellSo }
    ensures runs { RunsAreOfSteps }
    ensures told { ToldAreOfSteps }
{}

/// What goes out and what comes in is told step by step, entries with the state's pairs.
///
/// What goes out by some lines and then others is what goes out by the first and then by the others. So it is
/// of what comes in, if the others are lines of steps: no `enter` line is parted from its `pass` line. An
/// entry comes in with the pairs of the state after its `xjmp`, whether a `pass` line tells them or not.
pub fn lines_are_a_feed()
    ensures outs { OutsJoin }
    ensures items { ItemsJoin }
    ensures entries { EntriesAreItems }
{}
