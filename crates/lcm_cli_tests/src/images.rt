//! Images whose put fails, or of which the answer can't be written.
use crate::call::{Case, are_told, files, is_told, is_told_unwritten};
use lcm_cli::Status;
use outside_io::MemFiles;
use std::alloc::{AllocError, Global};
use std::process::Abort;
use std::test::Fail;

// The third call on the files is the put of the first line.
static CASES: [Case<'static>; 4] = [
    (
        "link --stack 4 --out one.img u:one.asm",
        Status::WriteFault,
        "",
        None,
    ),
    ("run one.img", Status::ReadFault, "read fault\n", None),
    (
        "link --stack 4 --out one.img u:one.asm",
        Status::Done,
        "ok\n",
        None,
    ),
    ("run one.img", Status::Done, "halted 0 steps 1\n", Some(1)),
];

// The image is put, and what can't be written is `ok`.
static UNWRITTEN: Case<'static> = (
    "link --stack 4 --out late.img u:one.asm",
    Status::WriteFault,
    "",
    None,
);

static LATE: Case<'static> = ("run late.img", Status::Done, "halted 0 steps 1\n", Some(1));

fn late_is_put(rt: &impl Abort, alloc: Global, files: &mut MemFiles) -> Result<(), AllocError> {
    is_told_unwritten(rt, alloc, files, 1, UNWRITTEN)?;
    is_told(rt, alloc, files, LATE)
}

#[test]
fn images_are_put_or_not(rt: HostRuntime) -> Result<(), Fail> {
    let mut files = files(rt.alloc())?;
    files.fail_at(3);
    are_told(&rt, rt.alloc(), &mut files, &CASES)?;
    late_is_put(&rt, rt.alloc(), &mut files)?;
    Ok(())
}
