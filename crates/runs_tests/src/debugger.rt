//! A debugger by its calls, the commands of a script, and a reply that can't be written.
ghost use Rattle.std.specs.Prelude.{◌≡◌, None, IfOk};

use crate::parts::started;
use component_linker::Start;
use debug_script::{DebugCommand, Script, script_of};
use debug_tool::{DebugFault, debug};
use lcm_isa::Reg;
use lcm_machine::Step;
use outside_io::MemSink;
use std::alloc::{AllocError, Global};
use std::process::Abort;
use std::test::Fail;
use step_back::{Debugger, Stop};

// The start of a part with this code.
fn start_of(rt: &impl Abort, alloc: Global, code: &str) -> Result<Start, AllocError>
    ensures { IfOk result (λ s. (s.state.count ≡ 0) × (s.state.end ≡ None)) }
{
    let text = format!(in alloc;
        ".name one\n.stack 65536\n.closure 1\n.code 100\n{code}\n.data 200\n.int 0\n.export main 0 shared\n"
    )?;
    started(rt, alloc, &[(false, text.as_str())])
}

fn scripted(rt: &impl Abort, alloc: Global, text: &str) -> Script {
    match script_of(alloc, text.as_bytes()) {
        Ok(script) => script,
        Err(fault) => panic!(rt; "{text}: {fault}"),
    }
}

// What is written of a script over a part with this code, and how that ends.
fn replied(
    rt: &impl Abort,
    alloc: Global,
    code: &str,
    script: &str,
    out: &mut MemSink,
) -> Result<Result<(), DebugFault>, AllocError> {
    let script = scripted(rt, alloc, script);
    let start = start_of(rt, alloc, code)?;
    Ok(debug(alloc, start, &script, out))
}

// Whether a script stops at the write of this number, with what was written before.
fn stops_at(rt: &impl Abort, alloc: Global, number: u32, before: &str) -> Result<bool, AllocError> {
    let mut out = MemSink::new(alloc)?;
    out.fail_at(number);
    let end = replied(rt, alloc, "halt", "r g0\nc 99\nf 1\n", &mut out)?;
    Ok(matches!(end, Err(DebugFault::WriteFault)) && out.bytes() == before.as_bytes())
}

#[test]
fn a_write_that_fails_stops_the_script(rt: HostRuntime) -> Result<(), Fail> {
    assert!(rt; stops_at(&rt, rt.alloc(), 1, "")?);
    assert!(rt; stops_at(&rt, rt.alloc(), 2, "0\n")?);
    assert!(rt; stops_at(&rt, rt.alloc(), 3, "0\nnone\n")?);
    Ok(())
}

// Two steps back at most, of a loop of two instructions.
fn goes_two_steps_back(rt: &impl Abort, alloc: Global) -> Result<(), AllocError> {
    let start = start_of(rt, alloc, "move g1 pc\njmp g1")?;
    let mut debugger = Debugger::make(alloc, start, 2)?;
    assert!(rt; matches!(debugger.forward(), Step::Went));
    assert!(rt; matches!(debugger.go(2), Stop::Spent));
    assert_eq!(rt; debugger.state().count(), 3);
    assert_eq!(rt;
        (debugger.back(), debugger.back(), debugger.back()),
        (true, true, false)
    );
    assert_eq!(rt;
        (debugger.state().count(), debugger.state().pc_at()),
        (1, 101)
    );
    assert!(rt; matches!(debugger.go(9), Stop::Spent));
    assert_eq!(rt; (debugger.go_back(9), debugger.go_back(9)), (2, 0));
    assert_eq!(rt; debugger.state().count(), 8);
    debugger.close();
    Ok(())
}

#[test]
fn a_debugger_goes_back_as_far_as_its_depth(rt: HostRuntime) -> Result<(), Fail> {
    goes_two_steps_back(&rt, rt.alloc())?;
    Ok(())
}

// An end is answered again and again, and gone back from.
fn ends_and_goes_back(rt: &impl Abort, alloc: Global) -> Result<(), AllocError> {
    let start = start_of(rt, alloc, "move g1 2\nhalt")?;
    let mut debugger = Debugger::make(alloc, start, 65_536)?;
    assert!(rt; debugger.stop_at(101));
    assert!(rt; matches!(debugger.go(9), Stop::Break));
    assert!(rt; debugger.clear(101));
    assert!(rt; matches!(debugger.forward(), Step::Halted));
    assert!(rt; matches!(debugger.forward(), Step::Halted));
    assert!(rt; matches!(debugger.go(0), Stop::Ended(Step::Halted)));
    assert!(rt; debugger.back());
    assert_eq!(rt; debugger.state().count(), 1);
    assert!(rt; debugger.state().ended().is_none());
    assert!(rt; matches!(debugger.go(0), Stop::Spent));
    assert_eq!(rt; debugger.go_back(5), 1);
    debugger.close();
    Ok(())
}

#[test]
fn an_end_is_gone_back_from(rt: HostRuntime) -> Result<(), Fail> {
    ends_and_goes_back(&rt, rt.alloc())?;
    Ok(())
}

fn are_as_written(rt: &impl Abort, commands: &[DebugCommand]) {
    let [forward, back, stop, clear, cell, register] = commands else {
        panic!(rt; "not six commands");
    };
    assert!(rt; matches!(forward, DebugCommand::Forward(7)));
    assert!(rt; matches!(back, DebugCommand::Back(8)));
    assert!(rt; matches!(stop, DebugCommand::StopAt(9)));
    assert!(rt; matches!(clear, DebugCommand::Clear(10)));
    assert!(rt; matches!(cell, DebugCommand::Cell(11)));
    assert!(rt; matches!(register, DebugCommand::Register(Reg::G1)));
}

#[test]
fn commands_are_those_of_their_lines(rt: HostRuntime) -> Result<(), Fail> {
    let text = "f 7\nb 8\nstop 9\nclear 10\nc 11\nr g1\n";
    match script_of(rt.alloc(), text.as_bytes()) {
        Ok(script) => are_as_written(&rt, script.commands()),
        Err(fault) => panic!(rt; "{fault}"),
    }
    Ok(())
}
