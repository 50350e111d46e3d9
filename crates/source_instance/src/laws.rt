//! That the theorem of sources speaks of something. These functions do nothing; their contracts are the laws.
ghost use Rattle.source_instance.specs.There.{SourceThere};
ghost use Rattle.source_instance.specs.Shows.{SourceShows};
ghost use Rattle.source_instance.specs.Entered.{EnteredThere};

use headline::laws::{start_lines_agree, the_headline};
use source_laws::laws::each_lets_go;
use source_starts::laws::{plain_runs_wipe, sources_leave_nothing, sources_mean};

/// There is a run in which code outside enters a source, is called, answers and is left to, as its meaning
/// tells.
///
/// The meaning of what came in tells the call and the leaving, and waits then. The source is a module, and
/// code outside a part that isn't trusted.
pub fn a_source_is_entered()
    ensures { SourceThere }
{
    the_headline();
    start_lines_agree();
    sources_mean();
}

/// There is a run of a source in which registers and cells in reach, computed at both crossings, are as the
/// laws say.
///
/// At both, the pair that is opened is the one that came with the entry, and all words that are told are 0.
/// At the call out the stack below the frame is given away, and the lowest wiped cell, of which the refined
/// meaning tells, lies above it, so that nothing is wiped that code outside could see. Where the procedure
/// leaves, the whole stack is given back, and the cells of the frame hold 0.
pub fn a_source_shows_no_more()
    ensures { SourceShows }
{
    each_lets_go();
    sources_leave_nothing();
    plain_runs_wipe();
}

/// There is a run in which code outside enters by both doors, an export and the return of an open call.
///
/// The untrusted part is code outside by the words of `confinement::laws::code_outside_is_confined`. Its
/// eighth instruction comes from no trusted part's code, and the next one from the module's, where that
/// exports its procedure. And so it comes back by the call of the procedure, which is open then.
pub fn code_outside_enters()
    ensures { EnteredThere }
{
    the_headline();
    start_lines_agree();
}
