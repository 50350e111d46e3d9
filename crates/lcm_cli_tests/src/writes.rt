//! Writes that fail: what was written before them stands, and nothing is written after.
use crate::call::{Case, is_told_unwritten, run};
use crate::sources;
use lcm_cli::Status;
use outside_io::MemFiles;
use std::alloc::{AllocError, Global};
use std::process::Abort;
use std::test::Fail;
use worked_parts::{CALLER, text};

// The pieces in which the run of a deposit is written: an entry is one write; a call and a return are each a
// head, five words and a newline; a leave and the end line are one.
static PIECES: [&str; 17] = [
    "enter bank deposit cap(rw,lin,65536,65599,65599) 5 0 0 0 out\n",
    "call out bank 0 65595 65599 105 0 0 0 :",
    " cap(rw,nor,8192,8196,8192)",
    " 105",
    " 5",
    " sealed(21,cap(rw,nor,16384,16385,16384))",
    " sealed(21,cap(rwx,nor,12288,12303,12301))",
    "\n",
    "ret out bank 0 65595 65599 105 :",
    " cap(rw,nor,8192,8196,8192)",
    " 105",
    " 5",
    " sealed(21,cap(rw,nor,16384,16385,16384))",
    " sealed(21,cap(rwx,nor,12288,12303,12301))",
    "\n",
    "leave bank 105\n",
    "halted 105 steps 136\n",
];

static DEPOSITS: [&str; 2] = [
    "run --stack 64 --steps 1000 t:bank.prc u:teller.asm",
    "trace --stack 64 --steps 1000 t:bank.prc u:teller.asm",
];

// Where this write fails, the pieces before it stand, of a run and of a trace.
fn write_fails(
    rt: &impl Abort,
    alloc: Global,
    files: &mut MemFiles,
    number: u32,
    text: &str,
) -> Result<(), AllocError> {
    for line in &DEPOSITS {
        let case = (*line, Status::WriteFault, text, None);
        is_told_unwritten(rt, alloc, files, number, case)?;
    }
    Ok(())
}

fn each_write_fails(
    rt: &impl Abort,
    alloc: Global,
    files: &mut MemFiles,
) -> Result<(), AllocError> {
    let mut text = String::new(alloc);
    let mut number: u32 = 0;
    for piece in &PIECES {
        number = number.saturating_add(1);
        write_fails(rt, alloc, files, number, text.as_str())?;
        text.push_str(piece)?;
    }
    Ok(())
}

#[test]
fn runs_and_traces_stop_at_each_write_that_fails(rt: HostRuntime) -> Result<(), Fail> {
    let mut files = sources::files(rt.alloc())?;
    each_write_fails(&rt, rt.alloc(), &mut files)?;
    Ok(())
}

// A part that moves its stack about.
const MOVES: &str = "\
.name one
.stack 65536
.closure 1
.code 100
move stk stk
move g0 stk
getlin g1 g0
getlin g2 stk
plus a0 g1 g2
halt
.data 200
.int 0
.export main 0 shared
";

const CALLED: &str = "call out t 0 65599 65599 0 0 0 0 : cap(rw,nor,8192,8193,8193)\n";

const AND_RETURNED: &str = "\
call out t 0 65599 65599 0 0 0 0 : cap(rw,nor,8192,8193,8193)
ret out t 0 65599 65599 0 : cap(rw,nor,8192,8193,8193)
";

// The number of the write that fails, and what was written before it. The call and the return of a trusted
// part in assembler text are a head, a word and a newline each; then comes the end line.
static CUTS: [(u32, Case<'static>); 12] = [
    (1, ("check t:few.prc", Status::WriteFault, "", None)),
    (1, ("generate --seed 1", Status::WriteFault, "", None)),
    (
        2,
        (
            "mean --stack 64 --feed bank.feed t:bank.prc",
            Status::WriteFault,
            "call bank 0 105 0 0 0\n",
            None,
        ),
    ),
    (
        3,
        (
            "debug --feed back u:moves.asm",
            Status::WriteFault,
            "at 102 steps 2\n0\n",
            None,
        ),
    ),
    (1, (RUN, Status::WriteFault, "", None)),
    (1, (TRACE, Status::WriteFault, "", None)),
    (2, (RUN, Status::WriteFault, HEAD, None)),
    (2, (TRACE, Status::WriteFault, HEAD, None)),
    (4, (RUN, Status::WriteFault, CALLED, None)),
    (4, (TRACE, Status::WriteFault, CALLED, None)),
    (7, (RUN, Status::WriteFault, AND_RETURNED, None)),
    (7, (TRACE, Status::WriteFault, AND_RETURNED, None)),
];

const RUN: &str = "run --stack 64 t:t.asm u:back.asm";

const TRACE: &str = "trace --stack 64 t:t.asm u:back.asm";

const HEAD: &str = "call out t 0 65599 65599 0 0 0 0 :";

// The text of a run becomes a file.
fn add_feed(alloc: Global, files: &mut MemFiles, name: &str, line: &str) -> Result<(), AllocError> {
    let told = run(alloc, line, files)?;
    files.add(name, told.text.as_bytes())
}

fn all_files(alloc: Global) -> Result<MemFiles, AllocError> {
    let mut files = sources::files(alloc)?;
    files.add("t.asm", text(alloc, &CALLER)?.as_bytes())?;
    files.add("moves.asm", MOVES.as_bytes())?;
    files.add("back", b"f 2\nr stk\nb 1\nr stk\nf 9\nb 1\n")?;
    let deposit = "run --stack 64 t:bank.prc u:teller.asm";
    add_feed(alloc, &mut files, "bank.feed", deposit)?;
    Ok(files)
}

#[test]
fn each_action_stops_at_a_write_that_fails(rt: HostRuntime) -> Result<(), Fail> {
    let mut files = all_files(rt.alloc())?;
    for (number, case) in &CUTS {
        is_told_unwritten(&rt, rt.alloc(), &mut files, *number, *case)?;
    }
    Ok(())
}
