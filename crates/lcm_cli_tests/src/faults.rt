//! Faults outside.
use crate::call::{Case, files, is_told, is_told_unwritten, status_over};
use crate::sources;
use lcm_cli::Status;
use outside_io::MemFiles;
use std::alloc::{AllocError, Global};
use std::process::Abort;
use std::test::Fail;

const TWO_PARTS: &str = "run u:one.stc u:two.stc";

fn is_unread(rt: &impl Abort, alloc: Global, number: u32) -> Result<(), AllocError> {
    let mut files = files(alloc)?;
    files.fail_at(number);
    let case = (TWO_PARTS, Status::ReadFault, "read fault\n", None);
    is_told(rt, alloc, &mut files, case)
}

// Where the call of this number fails, reads and puts counted together.
fn fails_at(
    rt: &impl Abort,
    alloc: Global,
    files: &mut MemFiles,
    number: u32,
    case: Case<'_>,
) -> Result<(), AllocError> {
    files.fail_at(number);
    is_told(rt, alloc, files, case)
}

// Each read of two sources, and each read and the put of an image that is linked.
fn each_read_and_put_fails(rt: &impl Abort, alloc: Global) -> Result<(), AllocError> {
    for number in [1, 2, 3, 4] {
        let deposit = "run --stack 64 --steps 1000 t:bank.prc u:teller.asm";
        let case = (deposit, Status::ReadFault, "read fault\n", None);
        fails_at(rt, alloc, &mut sources::files(alloc)?, number, case)?;
    }
    let link = "link --stack 4 --out one.img u:one.asm";
    for number in [1, 2] {
        let case = (link, Status::ReadFault, "read fault\n", None);
        fails_at(rt, alloc, &mut files(alloc)?, number, case)?;
    }
    let case = (link, Status::WriteFault, "", None);
    fails_at(rt, alloc, &mut files(alloc)?, 3, case)?;
    compiled_put_fails(rt, alloc, &mut sources::files(alloc)?)
}

// What can't be put isn't there.
fn compiled_put_fails(
    rt: &impl Abort,
    alloc: Global,
    files: &mut MemFiles,
) -> Result<(), AllocError> {
    let compile = "compile t:bank.prc --out b.stc";
    fails_at(rt, alloc, files, 3, (compile, Status::WriteFault, "", None))?;
    is_told(
        rt,
        alloc,
        files,
        ("dis u:b.stc", Status::ReadFault, "read fault\n", None),
    )
}

#[test]
fn a_read_that_fails_is_told_at_each_part(rt: HostRuntime) -> Result<(), Fail> {
    // Each of these files is read by two calls: the second one gives no more bytes.
    for number in [1, 2, 3, 4] {
        is_unread(&rt, rt.alloc(), number)?;
    }
    each_read_and_put_fails(&rt, rt.alloc())?;
    let mut files = files(rt.alloc())?;
    files.fail_at(5);
    let case = (TWO_PARTS, Status::Done, "halted 0 steps 1\n", Some(1));
    is_told(&rt, rt.alloc(), &mut files, case)?;
    Ok(())
}

static LINES: [&str; 5] = [
    "run u:one.asm",
    "check u:one.stc",
    "run u:empty.stc",
    "run u:missing.stc",
    "run",
];

#[test]
fn a_write_that_fails_keeps_no_machine(rt: HostRuntime) -> Result<(), Fail> {
    let mut files = files(rt.alloc())?;
    for line in &LINES {
        let case = (*line, Status::WriteFault, "", None);
        is_told_unwritten(&rt, rt.alloc(), &mut files, 1, case)?;
    }
    // The line is one piece: a second write never comes.
    let case = ("run u:one.asm", Status::Done, "halted 0 steps 1\n", Some(1));
    is_told_unwritten(&rt, rt.alloc(), &mut files, 2, case)?;
    Ok(())
}

// Of a text of ten bytes, `asm 0 7 0` and a newline, over sinks with room for a byte more and for a byte
// less.
#[test]
fn a_reserved_sink_takes_a_text_that_fits(rt: HostRuntime) -> Result<(), Fail> {
    let mut files = MemFiles::new(rt.alloc())?;
    files.add("e.asm", b"")?;
    let statuses = (
        status_over::<11>(rt.alloc(), "run u:e.asm", &mut files)?,
        status_over::<9>(rt.alloc(), "run u:e.asm", &mut files)?,
    );
    assert_eq!(rt; statuses, (Status::AsmRefused, Status::WriteFault));
    Ok(())
}
