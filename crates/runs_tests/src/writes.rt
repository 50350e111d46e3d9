//! Runs and traces that take no step, and those that stop at a write that fails.
ghost use Rattle.std.specs.Prelude.{◌≡◌, None, IfOk};

use crate::parts::started;
use component_linker::Start;
use outside_io::MemSink;
use overlay_machine::Overlay;
use std::alloc::{AllocError, Global};
use std::process::Abort;
use std::test::Fail;
use trace_tool::{RunEnd, run_overlay, run_plain};
use worked_parts::{BACK, CALLER, Piece, text};

// Goes on to what rcode and rdata hold, from an entry with two names; the other entry halts.
static ONWARD: [Piece; 5] = [
    Piece::Lines(".name t\n.stack 65536\n.closure 10\n.code 4096\nstop: fail\n"),
    Piece::Entry("back"),
    Piece::Lines("xjmp rcode rdata\n"),
    Piece::Entry("other"),
    Piece::Lines(
        "halt\n.data 8192\n.int 0\n.export aa back shared\n.export back back shared\n\
         .export other other shared\n.fail stop\n",
    ),
];

// Enters `back` of `t` with the pairs of `other` and of `end` in its argument registers.
const PASSES: &str = ".name m\n.stack 65536\n.closure 30\n.code 20480\nload a0 data\ncca data 1\n\
    load a1 data\ncca data 1\nload c1 data\ncca data 1\nload c2 data\ncca data 1\nload a2 data\n\
    cca data 1\nload a3 data\nxjmp c1 c2\n.data 24576\n.int 0\n.int 0\n.int 0\n.int 0\n.int 0\n.int 0\n\
    .import t other 0\n.import t back 2\n.import b end 4\n.export main 0 shared\n";

// Halts.
const ENDS: &str = ".name b\n.stack 65536\n.closure 40\n.code 28672\nhalt\n.data 32768\n.int 0\n\
    .export end 0 shared\n";

// The pieces that a call and its return are written in, and those of a pass, each of them a write.
static CALL_PIECES: [&str; 7] = [
    "call out t 0 65599 65599 0 0 0 0 :",
    " cap(rw,nor,8192,8193,8193)",
    "\n",
    "ret out t 0 65599 65599 0 :",
    " cap(rw,nor,8192,8193,8193)",
    "\n",
    "halted 0 steps 51\n",
];

static PASS_PIECES: [&str; 3] = [
    "enter t aa cap(rw,lin,65536,65599,65599) sealed(10,cap(rx,nor,4096,4138,4118)) \
     sealed(10,cap(rw,nor,8192,8192,8192)) sealed(40,cap(rwx,nor,28672,28672,28672)) \
     sealed(40,cap(rw,nor,32768,32768,32768)) bad\n",
    "pass hop:t:other bad out\n",
    "failed 4117 F6 steps 33\n",
];

/// Which parts are run.
#[derive(Clone, Copy)]
enum Parts {
    /// `CALLER` and `BACK`.
    Calls,
    /// `ONWARD`, `PASSES` and `ENDS`.
    Passes,
}

fn start_of(rt: &impl Abort, alloc: Global, parts: Parts) -> Result<Start, AllocError>
    ensures { IfOk result (λ s. (s.state.count ≡ 0) × (s.state.end ≡ None)) }
{
    match parts {
        Parts::Calls => {
            let caller = text(alloc, &CALLER)?;
            started(rt, alloc, &[(true, caller.as_str()), (false, BACK)])
        }
        Parts::Passes => {
            let onward = text(alloc, &ONWARD)?;
            let texts = [(true, onward.as_str()), (false, PASSES), (false, ENDS)];
            started(rt, alloc, &texts)
        }
    }
}

fn run(
    rt: &impl Abort,
    alloc: Global,
    parts: Parts,
    steps: u64,
    out: &mut MemSink,
) -> Result<RunEnd, AllocError> {
    assert!(rt; steps < 10_000);
    let mut start = start_of(rt, alloc, parts)?;
    Ok(run_plain(&mut start, steps, out))
}

// What the overlay's run over a start comes to.
fn traced(
    rt: &impl Abort,
    alloc: Global,
    start: &Start,
    steps: u64,
    out: &mut MemSink,
) -> Result<RunEnd, AllocError> {
    assert!(rt; steps < 10_000);
    let mut overlay = Overlay::of_start(alloc, start)?;
    Ok(run_overlay(&mut overlay, start, steps, out))
}

fn trace(
    rt: &impl Abort,
    alloc: Global,
    parts: Parts,
    steps: u64,
    out: &mut MemSink,
) -> Result<RunEnd, AllocError> {
    let start = start_of(rt, alloc, parts)?;
    traced(rt, alloc, &start, steps, out)
}

// What is written where no step is taken.
const NO_STEP: &str = "running 4098 steps 0\n";

fn runs_no_step(rt: &impl Abort, alloc: Global) -> Result<bool, AllocError> {
    let mut out = MemSink::new(alloc)?;
    let end = run(rt, alloc, Parts::Calls, 0, &mut out)?;
    Ok(end == RunEnd::Running && out.bytes() == NO_STEP.as_bytes())
}

fn traces_no_step(rt: &impl Abort, alloc: Global) -> Result<bool, AllocError> {
    let mut out = MemSink::new(alloc)?;
    let end = trace(rt, alloc, Parts::Calls, 0, &mut out)?;
    Ok(end == RunEnd::Running && out.bytes() == NO_STEP.as_bytes())
}

#[test]
fn no_step_is_taken(rt: HostRuntime) -> Result<(), Fail> {
    let run = runs_no_step(&rt, rt.alloc())?;
    let trace = traces_no_step(&rt, rt.alloc())?;
    assert_eq!(rt; (run, trace), (true, true));
    Ok(())
}

// Whether a run of these parts stops at a write that fails, with what was written before.
fn run_stops(
    rt: &impl Abort,
    alloc: Global,
    parts: Parts,
    before: &str,
    out: &mut MemSink,
) -> Result<bool, AllocError> {
    let end = run(rt, alloc, parts, 1000, out)?;
    Ok(end == RunEnd::WriteFault && out.bytes() == before.as_bytes() && out.faults() == 1)
}

fn trace_stops(
    rt: &impl Abort,
    alloc: Global,
    parts: Parts,
    before: &str,
    out: &mut MemSink,
) -> Result<bool, AllocError> {
    let end = trace(rt, alloc, parts, 1000, out)?;
    Ok(end == RunEnd::WriteFault && out.bytes() == before.as_bytes() && out.faults() == 1)
}

fn run_stops_at(
    rt: &impl Abort,
    alloc: Global,
    parts: Parts,
    number: u32,
    before: &str,
) -> Result<bool, AllocError> {
    let mut out = MemSink::new(alloc)?;
    out.fail_at(number);
    run_stops(rt, alloc, parts, before, &mut out)
}

fn trace_stops_at(
    rt: &impl Abort,
    alloc: Global,
    parts: Parts,
    number: u32,
    before: &str,
) -> Result<bool, AllocError> {
    let mut out = MemSink::new(alloc)?;
    out.fail_at(number);
    trace_stops(rt, alloc, parts, before, &mut out)
}

fn stop_at_each_write(
    rt: &impl Abort,
    alloc: Global,
    parts: Parts,
    pieces: &[&str],
    before: &mut String,
) -> Result<(), AllocError> {
    let mut number = 0_u32;
    for piece in pieces {
        number = number.saturating_add(1);
        let run = run_stops_at(rt, alloc, parts, number, before.as_str())?;
        let trace = trace_stops_at(rt, alloc, parts, number, before.as_str())?;
        assert_eq!(rt; (run, trace), (true, true), "write {number}");
        before.push_str(*piece)?;
    }
    Ok(())
}

fn stop(rt: &impl Abort, alloc: Global, parts: Parts, pieces: &[&str]) -> Result<(), AllocError> {
    let mut before = String::new(alloc);
    stop_at_each_write(rt, alloc, parts, pieces, &mut before)
}

#[test]
fn a_run_stops_at_each_write_that_fails(rt: HostRuntime) -> Result<(), Fail> {
    stop(&rt, rt.alloc(), Parts::Calls, &CALL_PIECES)?;
    stop(&rt, rt.alloc(), Parts::Passes, &PASS_PIECES)?;
    Ok(())
}
