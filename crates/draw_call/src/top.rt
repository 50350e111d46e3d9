//! The call.
ghost use Rattle.std.specs.Prelude.{◌<◌, [], length, Some, Ok, Err};
ghost use Rattle.command_words.specs.Answers.{GivesAnswer, WritesOrFails};
ghost use Rattle.command_words.specs.Texts.{texts};
ghost use Rattle.draw_call.specs.Words.{call_in};
ghost use Rattle.draw_call.specs.Answers.{DrawAnswers, answer_to, stk_draw, seen_by};

use crate::drawing::picture_of;
use crate::refusal::{DrawRefusal, DrawStop, refusal_ends, refusal_line};
use crate::status::DrawStatus;
use crate::words::{DrawCall, call_in};
use cap_words::Items;
use command_words::FileName;
use outside_io::{Files, Sink};
use std::alloc::Global;

// Writes a line, and answers the status, or WriteFault where the sink fails.
fn say<S: Sink>(out: &mut S, line: &str, status: DrawStatus) -> DrawStatus
    requires { 0 < length line.now }
    ensures { WritesOrFails (stk_draw []) (S.seen out.old) line.now status result (S.seen out.new) }
{
    match out.write(line.as_bytes()) {
        Ok(()) => status,
        Err(_) => DrawStatus::WriteFault,
    }
}

// Tells of a refusal.
fn refuse<S: Sink>(why: DrawRefusal, out: &mut S) -> DrawStatus
    ensures { (name : _) (files : _) → GivesAnswer (stk_draw name) (seen_by files (S.seen out.old))
        (answer_to name (Err why)) result (seen_by files (S.seen out.new)) }
{
    say(out, refusal_line(why).as_str(), refusal_ends(why))
}

// Puts the picture, and then writes `ok`.
fn give<F: Files, S: Sink>(
    name: &FileName<'_>,
    svg: &Items<u8>,
    files: &mut F,
    out: &mut S,
) -> DrawStatus
    ensures { GivesAnswer (stk_draw name.now) (seen_by (F.seen files.old) (S.seen out.old))
        (answer_to name.now (Ok svg.now)) result (seen_by (F.seen files.new) (S.seen out.new)) }
{
    match files.put(name.as_str(), svg.as_slice()) {
        Ok(()) => say(out, "ok\n", DrawStatus::Done),
        Err(_) => DrawStatus::WriteFault,
    }
}

// Draws the text of the one file, and puts its picture into the other.
fn answer<F: Files, S: Sink>(
    alloc: Global,
    call: &DrawCall<'_>,
    files: &mut F,
    out: &mut S,
) -> DrawStatus
    ensures { DrawAnswers (Some call.now) (seen_by (F.seen files.old) (S.seen out.old)) result
        (seen_by (F.seen files.new) (S.seen out.new)) }
{
    match picture_of(alloc, files, call) {
        Ok(svg) => give(&call.out, &svg, files, out),
        Err(DrawStop::Refused(why)) => refuse(why, out),
        Err(DrawStop::NoMemory) => DrawStatus::NoMemory,
    }
}

/// All that the program does, with the words after its own name: `--feed FILE --out FILE`, each once, in
/// either order, each also as `--feed=FILE`. A name has 1 to 255 bytes, of which the first isn't `-`.
///
/// It reads the file of `--feed`, puts the picture of its text under the name of `--out`, and then writes
/// `ok`. Words that are no command, a file that can't be read, a text that is too long to be drawn and one
/// that is no trace of a run are refused with a line, in this order, with no file changed.
pub fn draw_main<F: Files, S: Sink>(
    alloc: Global,
    words: &[String],
    files: &mut F,
    out: &mut S,
) -> DrawStatus
    ensures { DrawAnswers (call_in (texts words.now)) (seen_by (F.seen files.old) (S.seen out.old)) result
        (seen_by (F.seen files.new) (S.seen out.new)) }
{
    match call_in(alloc, words) {
        Ok(Some(call)) => answer(alloc, &call, files, out),
        Ok(None) => refuse(DrawRefusal::Usage, out),
        Err(_) => DrawStatus::NoMemory,
    }
}
