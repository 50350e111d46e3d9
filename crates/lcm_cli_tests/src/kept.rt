//! The machine that a call keeps: a run's, where all of it was written.
use crate::call::status_with;
use crate::sources;
use lcm_cli::Status;
use lcm_machine::LcmState;
use outside_io::MemFiles;
use std::alloc::{AllocError, Global};
use std::process::Abort;
use std::test::Fail;

// Calls that are made one after the other: the status, and the count and pc's address of the machine that is
// kept then.
static KEPT: [(&str, Status, Option<(u64, i64)>); 13] = [
    ("check t:rec.prc", Status::Done, None),
    ("run t:rec.prc u:missing.asm", Status::ReadFault, None),
    (
        "trace --stack 64 --steps 50 t:rec.prc u:back.asm",
        Status::StepsUsed,
        None,
    ),
    ("audit --feed rec.prc", Status::AuditRefused, None),
    (
        "run --stack 64 --steps 50 t:rec.prc u:back.asm",
        Status::StepsUsed,
        Some((50, 4148)),
    ),
    (
        "trace --stack 64 --steps 50 t:rec.prc u:back.asm",
        Status::StepsUsed,
        Some((50, 4148)),
    ),
    (
        "run t:rec.prc u:missing.asm",
        Status::ReadFault,
        Some((50, 4148)),
    ),
    (
        "run --stack 4 t:rec.prc u:back.asm",
        Status::MachineFailed,
        Some((52, 4149)),
    ),
    (
        "link --stack 64 --out bank.img t:bank.prc u:teller.asm",
        Status::Done,
        Some((52, 4149)),
    ),
    ("reach bank.img", Status::Done, Some((52, 4149))),
    ("run bank.img", Status::Done, Some((136, 12301))),
    ("run --stack 64", Status::Usage, Some((136, 12301))),
    ("dis u:teller.asm", Status::Done, Some((136, 12301))),
];

fn kept_at(
    alloc: Global,
    line: &str,
    files: &mut MemFiles,
    kept: &mut Option<LcmState>,
) -> Result<(Status, Option<(u64, i64)>), AllocError> {
    let status = status_with(alloc, line, files, kept)?;
    let at = kept
        .as_ref()
        .map(|machine| (machine.count(), machine.pc_at()));
    Ok((status, at))
}

fn machines_are_kept(
    rt: &impl Abort,
    alloc: Global,
    files: &mut MemFiles,
) -> Result<(), AllocError> {
    let mut kept: Option<LcmState> = None;
    for (line, status, at) in &KEPT {
        let got = kept_at(alloc, *line, files, &mut kept)?;
        assert_eq!(rt; got, (*status, *at), "{line}");
    }
    Ok(())
}

#[test]
fn a_run_leaves_its_machine(rt: HostRuntime) -> Result<(), Fail> {
    let mut files = sources::files(rt.alloc())?;
    machines_are_kept(&rt, rt.alloc(), &mut files)?;
    Ok(())
}

// Whether there are these cells: the stack is the 65,536 words from the base of the parts on.
fn has_the_stack(rt: &impl Abort, kept: &Option<LcmState>) {
    let seen = kept.as_ref().map(|machine| {
        (
            machine.count(),
            machine.has_cell(65_535),
            machine.has_cell(65_536),
            machine.has_cell(131_071),
            machine.has_cell(131_072),
        )
    });
    assert_eq!(rt; seen, Some((20_558, false, true, true, false)));
}

#[test]
fn a_load_leaves_its_machine(rt: HostRuntime) -> Result<(), Fail> {
    let mut files = MemFiles::new(rt.alloc())?;
    let mut kept: Option<LcmState> = None;
    let status = status_with(rt.alloc(), "generate --seed 0", &mut files, &mut kept)?;
    assert_eq!(rt; status, Status::Done);
    has_the_stack(&rt, &kept);
    Ok(())
}
