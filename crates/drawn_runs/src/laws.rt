//! What pictures of runs say of the runs. These functions do nothing; their contracts are the laws.
ghost use Rattle.drawn_runs.specs.Drawn.{RunsAreDrawn, BoxesAreOpenCalls, DarkIsOpen, DarkIsLeftAlone};
ghost use Rattle.drawn_runs.specs.Drawn.{DarkThere};

use audited_runs::laws::{lines_are_read, runs_pass};
use headline::laws::{lines_are_bracketed, open_calls_are_kept, the_headline};
use overlay_machine::laws::{a_start_has_one_overlay, linked_starts_agree, starts_begin};
use run_audit::laws::traces_are_found;
use run_lines::laws::lines_fit;
use run_picture::laws::{lines_and_addresses_are_seen, one_box_each, open_calls_are_seen};

/// The text of every run of under 2^64 instructions is drawn, unless it is too long.
///
/// The run is from a linked start.
pub fn runs_are_drawn()
    ensures { RunsAreDrawn }
{
    traces_are_found();
    runs_pass();
}

/// After each instruction a run's picture has a box for each open call, and just their ranges are dark.
///
/// The run is from a linked start. The boxes are those that stand after the last line that was written by
/// then: one for each call, over its range, in the order of the calls.
pub fn boxes_are_open_calls()
    ensures boxes { BoxesAreOpenCalls }
    ensures dark { DarkIsOpen }
{
    starts_begin();
    a_start_has_one_overlay();
    linked_starts_agree();
    lines_are_bracketed();
    lines_fit();
    the_headline();
    lines_are_read();
    one_box_each();
    lines_and_addresses_are_seen();
    open_calls_are_seen();
}

/// No instruction of a run touches what is dark in its picture, but two of that call's own return.
///
/// The run is from a linked start. The two load the frame's first word and wipe it. Dark is what is so after
/// the last line that was written before the instruction. There is such a use: in the run of the parts of the
/// headline, which calls and comes back.
pub fn dark_is_left_alone()
    ensures alone { DarkIsLeftAlone }
    ensures of_some { DarkThere }
{
    lines_fit();
    open_calls_are_kept();
    lines_are_read();
    lines_and_addresses_are_seen();
    boxes_are_open_calls();
}
