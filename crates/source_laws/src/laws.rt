//! What holds of runs and meanings. These functions do nothing; their contracts are the laws.
ghost use Rattle.source_laws.specs.Alike.{CallsSeenAlike, LeavesSeenAlike};
ghost use Rattle.source_laws.specs.Secrets.{EachLetsGo};
ghost use Rattle.source_laws.specs.Sources.{AgreeingRunsMean};

/// If meaning and run agree for each number of steps, the theorem of sources holds of the start.
///
/// At each matched point: if untrusted code runs, the meaning of the items that came in ends with Waiting,
/// and its events are those that went out. If trusted code halts there, the meaning halts with that value; if
/// it fails there, the meaning fails; else what went out is a prefix of the meaning's events, all for every
/// large enough fuel. For every fuel of which 200 times is less than the weight of the trusted steps, the
/// meaning is out of fuel, and its events are a prefix of what went out.
pub fn agreeing_runs_mean()
    ensures { AgreeingRunsMean }
{}

/// Calls out of two runs by one pair, with the same words, frames and wiped cells, are seen alike if all
/// before was.
///
/// The frames have one base, site and number. Stacks begin alike, and trusted parts keep the same addresses
/// for themselves.
pub fn calls_are_seen_alike()
    ensures { CallsSeenAlike }
{}

/// Procedures of two runs that leave by one pair, with the same stack, value and wiped cells, are seen alike
/// if all before was.
///
/// Stacks begin alike, and trusted parts keep the same addresses for themselves.
pub fn leaves_are_seen_alike()
    ensures { LeavesSeenAlike }
{}

/// Wherever trusted code's step arrives outside, there is a state since which it had control.
///
/// That is the start, or a state to which code outside made a step.
pub fn each_lets_go()
    ensures { EachLetsGo }
{}
