//! The reply to a command.
ghost use Rattle.std.specs.Prelude.{◌≡◌, ◌+◌, ◌≤◌, ◌<◌, ◌^◌, length};
ghost use Rattle.lcm_machine.specs.declared.Step.{Step as AnyStep};
ghost use Rattle.lcm_machine.specs.Cells.{cell};
ghost use Rattle.lcm_machine.specs.Run.{answer};
ghost use Rattle.debug_tool.specs.Replies.{reached_text, said, word_line, cell_line, said_if, steps_of};
ghost use Rattle.debug_tool.specs.Replies.{reply, after_command};

use cap_words::{Word, word_text};
use debug_script::DebugCommand;
use lcm_machine::LcmState;
use step_back::{Debugger, Stop};
use trace_tool::{EndLine, end_line, place_line};

// Where steps forward led.
fn reached_line(state: &LcmState, stop: Stop) -> EndLine
    requires { (step : AnyStep) → stop ≡ Stop.Ended step → step ≡ answer state.now }
    ensures bytes { result.bytes ≡ reached_text stop state.now }
    ensures some { 0 < length result.bytes }
{
    match stop {
        Stop::Break => place_line("stop", state),
        Stop::Ended(step) => end_line(state, step),
        Stop::Spent => place_line("at", state),
    }
}

// A word.
fn said(word: &str) -> EndLine
    requires { length word.now ≤ 16 }
    ensures bytes { result.bytes ≡ said word.now }
    ensures some { 0 < length result.bytes }
{
    let mut line = EndLine::new();
    line.push_str(word);
    line.push_str("\n");
    line
}

// The text of a word of the machine.
fn word_line(word: &Word) -> EndLine
    ensures bytes { result.bytes ≡ word_line word.now }
    ensures some { 0 < length result.bytes }
{
    let mut line = EndLine::new();
    line.push_str(word_text(word).as_str());
    line.push_str("\n");
    line
}

// What a cell holds.
fn cell_line(state: &LcmState, at: u32) -> EndLine
    ensures bytes { result.bytes ≡ cell_line (cell state.now.maps.cells at) }
    ensures some { 0 < length result.bytes }
{
    if state.has_cell(at) {
        word_line(state.cell(at))
    } else {
        said("none")
    }
}

// `ok`, or else another word.
fn said_if(is: bool, other: &str) -> EndLine
    requires { length other.now ≤ 16 }
    ensures bytes { result.bytes ≡ said_if is other.now }
    ensures some { 0 < length result.bytes }
{
    said(if is { "ok" } else { other })
}

/// Does a command, and answers the reply.
pub(crate) fn reply(debugger: &mut Debugger, command: DebugCommand) -> EndLine
    requires { debugger.old.now.count + steps_of command ≤ 2 ^ 63 }
    ensures after { debugger.new ≡ after_command command debugger.old }
    ensures count { debugger.new.now.count ≤ debugger.old.now.count + steps_of command }
    ensures bytes { result.bytes ≡ reply command debugger.old }
    ensures some { 0 < length result.bytes }
{
    match command {
        DebugCommand::Forward(steps) => {
            let stop = debugger.go(u64::from(steps));
            reached_line(debugger.state(), stop)
        }
        DebugCommand::Back(steps) => {
            let _ = debugger.go_back(u64::from(steps));
            place_line("at", debugger.state())
        }
        DebugCommand::StopAt(at) => said_if(debugger.stop_at(at), "full"),
        DebugCommand::Clear(at) => said_if(debugger.clear(at), "none"),
        DebugCommand::Cell(at) => cell_line(debugger.state(), at),
        DebugCommand::Register(register) => word_line(debugger.state().reg(register)),
    }
}
