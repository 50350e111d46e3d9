//! The picture of the text in a file.
ghost use Rattle.std.specs.Prelude.{Some};
ghost use Rattle.run_picture.specs.Picture.{drawn};
ghost use Rattle.command_words.specs.Plans.{Follows, Meets};
ghost use Rattle.draw_call.specs.Answers.{picture_plan, plan_in};

use crate::refusal::{DrawRefusal, DrawStop};
use crate::words::DrawCall;
use cap_words::Items;
use outside_io::{Files, ReadEnd, read_whole};
use run_audit::AuditFault;
use run_picture::{DrawFault, LAST_LENGTH, draw};
use std::alloc::Global;

// The picture of a text, or why it has none.
fn picture(alloc: Global, text: &[u8]) -> Result<Items<u8>, DrawStop>
    ensures { Meets (picture_plan (drawn text.now)) result }
{
    match draw(alloc, text) {
        Ok(svg) => Ok(Items::of(svg)),
        Err(DrawFault::TooLong) => Err(DrawStop::Refused(DrawRefusal::TooLong)),
        Err(DrawFault::Audit(AuditFault::NoMemory)) => Err(DrawStop::NoMemory),
        Err(DrawFault::Audit(fault)) => Err(DrawStop::Refused(DrawRefusal::Audit(fault))),
    }
}

/// The picture of the text in the file of `--feed`, or why it has none.
pub(crate) fn picture_of<F: Files>(
    alloc: Global,
    files: &mut F,
    call: &DrawCall<'_>,
) -> Result<Items<u8>, DrawStop>
    ensures { Follows (plan_in (Some call.now)) (F.seen files.old) result (F.seen files.new) }
{
    match read_whole(alloc, files, call.feed.as_str(), LAST_LENGTH as u32) {
        Ok(text) => picture(alloc, &text),
        Err(ReadEnd::Fault) => Err(DrawStop::Refused(DrawRefusal::ReadFault)),
        Err(ReadEnd::TooLong) => Err(DrawStop::Refused(DrawRefusal::TooLong)),
        Err(ReadEnd::NoMemory) => Err(DrawStop::NoMemory),
    }
}
