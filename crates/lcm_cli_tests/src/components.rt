//! Components that are put into files and shown, with a read, a put or a write that fails.
use crate::call::{Case, ONE, component, files, is_told_unwritten};
use lcm_cli::Status;
use outside_io::{MemFiles, read_whole};
use std::alloc::{AllocError, Global};
use std::process::Abort;
use std::test::Fail;

// The text of the part `one`, which `dis` writes.
const ONE_TEXT: &str = "\
.name one\n\
.stack 65536\n\
.closure 1\n\
.code 100\n\
halt\n\
.data 200\n\
.int 0\n\
.export main 0 shared\n";

// The numbers of the read or put that fails, and of the write that fails, 0 where none does; what the call
// comes to; and whether the file `new.stc` holds the part `one` then.
static CASES: [(u32, u32, Case<'static>, bool); 12] = [
    // Two reads and a put, and then one write.
    (
        1,
        0,
        (
            "asm u:one.asm --out new.stc",
            Status::ReadFault,
            "read fault\n",
            None,
        ),
        false,
    ),
    (
        2,
        0,
        (
            "asm u:one.asm --out new.stc",
            Status::ReadFault,
            "read fault\n",
            None,
        ),
        false,
    ),
    (
        3,
        0,
        ("asm u:one.asm --out new.stc", Status::WriteFault, "", None),
        false,
    ),
    (
        4,
        0,
        ("asm u:one.asm --out new.stc", Status::Done, "ok\n", None),
        true,
    ),
    (
        0,
        1,
        ("asm u:one.asm --out new.stc", Status::WriteFault, "", None),
        true,
    ),
    (
        0,
        2,
        ("asm u:one.asm --out new.stc", Status::Done, "ok\n", None),
        true,
    ),
    (
        1,
        0,
        ("dis u:one.stc", Status::ReadFault, "read fault\n", None),
        false,
    ),
    (
        2,
        0,
        ("dis u:one.stc", Status::ReadFault, "read fault\n", None),
        false,
    ),
    (3, 0, ("dis u:one.stc", Status::Done, ONE_TEXT, None), false),
    // A text is written line by line.
    (0, 1, ("dis u:one.stc", Status::WriteFault, "", None), false),
    (
        0,
        3,
        (
            "dis u:one.stc",
            Status::WriteFault,
            ".name one\n.stack 65536\n",
            None,
        ),
        false,
    ),
    (0, 9, ("dis u:one.stc", Status::Done, ONE_TEXT, None), false),
];

// Whether the file `new.stc` holds the part `one`.
fn holds_one(alloc: Global, files: &mut MemFiles) -> Result<bool, AllocError> {
    let bytes = component(alloc, &ONE)?;
    match read_whole(alloc, files, "new.stc", 4096) {
        Ok(held) => Ok(held == bytes),
        Err(_) => Ok(false),
    }
}

fn put_or_shown(
    rt: &impl Abort,
    alloc: Global,
    files: &mut MemFiles,
    unread: u32,
    unwritten: u32,
    case: Case<'_>,
) -> Result<bool, AllocError> {
    files.fail_at(unread);
    is_told_unwritten(rt, alloc, files, unwritten, case)?;
    files.fail_at(0);
    holds_one(alloc, files)
}

#[test]
fn components_are_put_and_shown(rt: HostRuntime) -> Result<(), Fail> {
    for (unread, unwritten, case, is_put) in &CASES {
        let mut files = files(rt.alloc())?;
        let held = put_or_shown(&rt, rt.alloc(), &mut files, *unread, *unwritten, *case)?;
        let (line, _, _, _) = *case;
        assert_eq!(&rt; held, *is_put, "{line}");
    }
    Ok(())
}
