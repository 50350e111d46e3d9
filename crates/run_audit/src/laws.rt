//! What holds of traces. These functions do nothing; their contracts are the laws.
ghost use Rattle.run_audit.specs.Brackets.{SaysTheSame};
ghost use Rattle.run_audit.specs.Laws.{TracesAreFound, FaultsAreFound};

/// Lines are bracketed by the grammar exactly if they lead from no open call to some list of them.
pub fn brackets_are_open_calls()
    ensures { SaysTheSame }
{}

/// An audit passes a text exactly if it is a trace, and else tells its one fault.
///
/// The fault is at the first line that spoils the text. So each text is a trace or has one fault, and none is
/// both.
pub fn traces_are_found()
    ensures traces { TracesAreFound }
    ensures faults { FaultsAreFound }
{}
