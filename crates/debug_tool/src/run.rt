//! The run of a script.
ghost use Rattle.std.specs.Prelude.{◌≡◌, ◌+◌, ◌≤◌, ◌^◌, None, IfErr, IsErrOf, OnOk, OnErr};
ghost use Rattle.outside_io.specs.SinkSeen.{Adds, FailsToWrite, IsOneWrite};
ghost use Rattle.outside_io.specs.Writes.{AddsPieces, FailsAtPiece};
ghost use Rattle.debug_tool.specs.declared.run.DebugFault.TheVariants.{WriteFault, NoMemory};
ghost use Rattle.debug_tool.specs.Replies.{steps_of, reply, after_command, steps_in, replies, after_commands};
ghost use Rattle.debug_tool.specs.Replies.{debug_replies, debug_text};
ghost use Rattle.debug_tool.specs.Faults.{FailsBy, StopsAtReply};

use crate::reply::reply;
use debug_script::{DebugCommand, Script};
use linked_starts::Start;
use outside_io::{Failed, Sink};
use std::alloc::{AllocError, Global};
use step_back::{Debugger, MOST_DEPTH};

/// Why replies were not all written.
#[derive(Clone, Copy)]
pub enum DebugFault {
    /// A write failed.
    WriteFault,
    /// Memory was refused, and nothing was written.
    NoMemory,
}

impl From<AllocError> for DebugFault {
    ghost from_gives = { λ _ e. e ≡ NoMemory };

    fn from(_e: AllocError) -> DebugFault {
        DebugFault::NoMemory
    }
}

// Does a command, and writes its reply in one piece.
fn run_command<S: Sink>(
    debugger: &mut Debugger,
    command: DebugCommand,
    out: &mut S,
) -> Result<(), Failed>
    requires { debugger.old.now.count + steps_of command ≤ 2 ^ 63 }
    ensures after { debugger.new ≡ after_command command debugger.old }
    ensures count { debugger.new.now.count ≤ debugger.old.now.count + steps_of command }
    ensures ok { OnOk result (Adds (S.seen out.old) (reply command debugger.old) (S.seen out.new)) }
    ensures err { OnErr result (FailsToWrite (S.seen out.old) (reply command debugger.old)
        (S.seen out.new)) }
    ensures counted { IsOneWrite (S.seen out.old) (S.seen out.new) }
{
    let line = reply(debugger, command);
    out.write(line.as_str().as_bytes())
}

/// Does the commands of a script, one after another, and writes the reply to each in one piece. It needs no
/// memory.
///
/// It stops at a write that fails: a front of this reply stands then after those before it, and the debugger
/// stands where its command led. The debugger has still to be closed.
pub fn run_script<S: Sink>(
    debugger: &mut Debugger,
    script: &Script,
    out: &mut S,
) -> Result<(), Failed>
    requires { debugger.old.now.count + steps_in script.now ≤ 2 ^ 63 }
    ensures ok { OnOk result (AddsPieces (S.seen out.old) (replies script.now debugger.old)
        (S.seen out.new)) }
    ensures after { OnOk result (debugger.new ≡ after_commands script.now debugger.old) }
    ensures err { OnErr result (StopsAtReply script.now debugger.old (S.seen out.old) debugger.new
        (S.seen out.new)) }
{
    for command in script.commands() {
        run_command(debugger, *command, out)?;
    }
    Ok(())
}

// A script makes a thousand million steps at most.
#[tactic(auto, using(crate::proofs::Rooms::few_steps_in))]
fn has_room(script: &Script)
    ensures { steps_in script.now ≤ 1000000000 }
{
    let _ = script.commands();
}

/// Makes a debugger at a start, which can go back [`MOST_DEPTH`] steps, runs a script over it, and closes it.
///
/// The start is as it was linked. What is written is the text of the replies, by the start's state and the
/// script alone, each reply in one piece.
pub fn debug<S: Sink>(
    alloc: Global,
    start: Start,
    script: &Script,
    out: &mut S,
) -> Result<(), DebugFault>
    requires fresh { start.state.count ≡ 0 }
    requires going { start.state.end ≡ None }
    ensures ok { OnOk result (Adds (S.seen out.old) (debug_text start.state script.now) (S.seen out.new)) }
    ensures err { IfErr result (FailsBy (S.seen out.old) (debug_text start.state script.now)
        (S.seen out.new)) }
    ensures pieces { OnOk result (AddsPieces (S.seen out.old) (debug_replies start.state script.now)
        (S.seen out.new)) }
    ensures piece { IsErrOf result WriteFault → FailsAtPiece (S.seen out.old)
        (debug_replies start.state script.now) (S.seen out.new) }
{
    let mut debugger = Debugger::make(alloc, start, MOST_DEPTH)?;
    has_room(script);
    let done = run_script(&mut debugger, script, out);
    debugger.close();
    match done {
        Ok(()) => Ok(()),
        Err(Failed) => Err(DebugFault::WriteFault),
    }
}
