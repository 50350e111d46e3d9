//! What is told of a generated load's run: its totals.
ghost use Rattle.std.specs.Prelude.{◌≡◌, ◌<◌, length};
ghost use Rattle.lcm_machine.specs.Run.{answer};
ghost use Rattle.lcm_cli.specs.Totals.{totals_line, totals_at};

use cap_words::word_text;
use itoa::Buffer;
use lcm_isa::Reg;
use lcm_machine::{LcmState, Step};
use link_tool::generated::Workload;
use trace_tool::{Counted, EndLine, end_line};

// The line of a run that halted.
fn totals_line(load: Workload, calls: u64, left: &LcmState) -> EndLine
    ensures bytes { result.bytes ≡ totals_line load calls left.now }
    ensures some { 0 < length result.bytes }
{
    let mut line = EndLine::new();
    let mut digits = Buffer::new();
    line.push_str("generated n ");
    line.push_str(digits.format(load.rounds));
    line.push_str(" k ");
    line.push_str(digits.format(load.added));
    line.push_str(" value ");
    line.push_str(word_text(left.reg(Reg::A0)).as_str());
    line.push_str(" calls ");
    line.push_str(digits.format(calls));
    line.push_str("\n");
    line
}

/// What is told of a load's run: its totals where it halted, and else its end line.
pub(crate) fn totals(load: Workload, run: Counted, left: &LcmState) -> EndLine
    requires { run.last ≡ answer left.now }
    ensures bytes { result.bytes ≡ totals_at run.last load run.calls left.now }
    ensures some { 0 < length result.bytes }
{
    match run.last {
        Step::Halted => totals_line(load, run.calls, left),
        last => end_line(left, last),
    }
}
