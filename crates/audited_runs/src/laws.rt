//! What holds of the lines and texts of runs, and of their audit. These functions do nothing; their contracts
//! are the laws.
ghost use Rattle.audited_runs.specs.Audited.{LinesAreFollowed, RunsPass};
ghost use Rattle.audited_runs.specs.Items.{TextsTellItems, TracesTellItems};
ghost use Rattle.audited_runs.specs.Spelling.{LinesAreRead, FittingHaveTexts};

use headline::laws::{lines_are_bracketed, start_lines_agree, the_headline};
use overlay_machine::laws::{a_start_has_one_overlay, linked_starts_agree, starts_begin};
use run_lines::laws::lines_fit;

/// An audit reads a text as a line exactly if it spells that line.
///
/// Each line that fits has such a text. A text spells a line if, with a newline, it is the text of an event's
/// line or of an end line.
pub fn lines_are_read()
    ensures exact { LinesAreRead }
    ensures fitting { FittingHaveTexts }
{}

/// A linked start's run has no line that an audit refuses.
///
/// The ranges of calls and returns aren't empty, and have a word for each address; each call lies below all
/// that are open; each return is that of the newest. The run may make any number of instructions.
pub fn lines_are_followed()
    ensures { LinesAreFollowed }
{
    starts_begin();
    a_start_has_one_overlay();
    linked_starts_agree();
    lines_are_bracketed();
    the_headline();
}

/// The text of every run from a linked start, of under 2^64 instructions, passes the audit.
pub fn runs_pass()
    ensures { RunsPass }
{
    lines_fit();
    lines_are_followed();
}

/// The text of a run or trace from a linked start is a feed with its lines' items.
///
/// Where stacks begin may be any address.
pub fn texts_tell_items()
    ensures runs { TextsTellItems }
    ensures traces { TracesTellItems }
{
    lines_fit();
    start_lines_agree();
}
