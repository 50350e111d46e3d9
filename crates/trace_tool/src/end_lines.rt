//! The line that a run ends with, and other lines that tell where a machine is.
ghost use Rattle.std.specs.Prelude.{◌≡◌, ◌+◌, ◌≤◌, ◌<◌, length, ◌++◌, codes};
ghost use Rattle.arrayvec.specs.ArrayString.{array_string_len};
ghost use Rattle.lcm_isa.specs.declared.Reg.TheVariants.{Pc};
ghost use Rattle.lcm_machine.specs.Places.{reg};
ghost use Rattle.lcm_machine.specs.Run.{answer};
ghost use Rattle.run_lines.specs.EndLines.{cause_text, pc_text, steps_text, halted_text, failed_text};
ghost use Rattle.run_lines.specs.EndLines.{failed_by_text};
ghost use Rattle.run_lines.specs.EndLines.{running_text, end_line};

use crate::view::Shown;
use arrayvec::ArrayString;
use itoa::Buffer;
use lcm_isa::Reg;
use lcm_machine::{FailCause, LcmState, Step};

/// A line. The longest end line has 163 bytes.
pub type EndLine = ArrayString<192>;

fn cause_text(cause: FailCause) -> &'static str
    ensures text { result.now ≡ cause_text cause }
    ensures short { length result.now ≤ 3 }
{
    match cause {
        FailCause::F1 => "F1",
        FailCause::F2 => "F2",
        FailCause::F3 => "F3",
        FailCause::F4 => "F4",
        FailCause::F5 => "F5",
        FailCause::F6 => "F6",
        FailCause::F7 => "F7",
        FailCause::F8 => "F8",
        FailCause::F9 => "F9",
        FailCause::F10 => "F10",
        FailCause::F11 => "F11",
        FailCause::F12 => "F12",
        FailCause::F13 => "F13",
        FailCause::F14 => "F14",
    }
}

// Appends pc's address, or `-` where pc holds no memory capability.
fn push_pc<V: Shown>(line: &mut EndLine, view: &V)
    requires { array_string_len line.old ≤ 60 }
    ensures bytes { line.new.bytes ≡ line.old.bytes ++ pc_text ((V.view view.now).reg Pc) }
    ensures len { array_string_len line.new ≤ array_string_len line.old + 40 }
{
    match view.pc() {
        Some(at) => {
            let mut digits = Buffer::new();
            line.push_str(digits.format(at));
        }
        None => line.push_str("-"),
    }
}

// Appends how many steps were made, and ends the line.
fn push_steps(line: &mut EndLine, steps: u64)
    requires { array_string_len line.old ≤ 140 }
    ensures bytes { line.new.bytes ≡ line.old.bytes ++ steps_text steps }
    ensures some { 0 < length line.new.bytes }
{
    let mut digits = Buffer::new();
    line.push_str(" steps ");
    line.push_str(digits.format(steps));
    line.push_str("\n");
}

/// `halted W steps N`, and a newline.
pub(crate) fn halted_line<V: Shown>(view: &V, steps: u64) -> EndLine
    ensures bytes { result.bytes ≡ halted_text (V.view view.now) steps }
    ensures some { 0 < length result.bytes }
{
    let mut line = EndLine::new();
    line.push_str("halted ");
    line.push_str(view.text(Reg::A0).as_str());
    push_steps(&mut line, steps);
    line
}

// `WORD PC steps N`, and a newline.
fn line_at<V: Shown>(word: &str, view: &V, steps: u64) -> EndLine
    requires { length word.now ≤ 16 }
    ensures bytes { let pc = (V.view view.now).reg Pc in
        result.bytes ≡ word.now ++ (codes " " ++ (pc_text pc ++ steps_text steps)) }
    ensures some { 0 < length result.bytes }
{
    let mut line = EndLine::new();
    line.push_str(word);
    line.push_str(" ");
    push_pc(&mut line, view);
    push_steps(&mut line, steps);
    line
}

/// `running PC steps N`, and a newline.
pub(crate) fn running_line<V: Shown>(view: &V, steps: u64) -> EndLine
    ensures bytes { result.bytes ≡ running_text (V.view view.now) steps }
    ensures some { 0 < length result.bytes }
{
    line_at("running", view, steps)
}

/// `failed PC steps N`, and a newline.
pub(crate) fn failed_line<V: Shown>(view: &V, steps: u64) -> EndLine
    ensures bytes { result.bytes ≡ failed_text (V.view view.now) steps }
    ensures some { 0 < length result.bytes }
{
    line_at("failed", view, steps)
}

// `failed PC CAUSE steps N`, and a newline.
fn failed_by_line<V: Shown>(view: &V, cause: FailCause, steps: u64) -> EndLine
    ensures bytes { result.bytes ≡ failed_by_text (V.view view.now) cause steps }
    ensures some { 0 < length result.bytes }
{
    let mut line = EndLine::new();
    line.push_str("failed ");
    push_pc(&mut line, view);
    line.push_str(" ");
    line.push_str(cause_text(cause));
    push_steps(&mut line, steps);
    line
}

/// The end line of a plain run, which came to this step, with its newline. `docs/COMMANDS.md` has its
/// forms.
pub fn end_line(state: &LcmState, step: Step) -> EndLine
    requires { step ≡ answer state.now }
    ensures bytes { result.bytes ≡ end_line state.now }
    ensures some { 0 < length result.bytes }
{
    match step {
        Step::Went => running_line(state, state.count()),
        Step::Halted => halted_line(state, state.count()),
        Step::Failed(cause, _) => failed_by_line(state, cause, state.count()),
    }
}

/// Where a plain machine is: a word, pc's address or `-`, and how many steps it made, as `WORD PC steps N`,
/// and a newline.
pub fn place_line(word: &str, state: &LcmState) -> EndLine
    requires { length word.now ≤ 16 }
    ensures bytes { let pc = reg state.now.maps.regs Pc in
        result.bytes ≡ word.now ++ (codes " " ++ (pc_text pc ++ steps_text state.now.count)) }
    ensures some { 0 < length result.bytes }
{
    line_at(word, state, state.count())
}
