//! What no clause says: that the definitions which the clauses cite draw what is meant. Each piece was worked
//! out by hand.
use run_audit::AuditFault;
use run_picture::{DrawFault, draw};
use std::alloc::{AllocError, Global};
use std::process::Abort;
use std::test::Fail;

// Three lines, in columns of 216 px: an entry, a call of which the return fails, and the end.
const FAILED: &[u8] = b"enter bank deposit cap(rw,lin,65536,65599,65599) 5 0 0 0 out
call out bank 0 65595 65599 105 0 0 0 : 1 105 5 7 8
failed 4096 F4 steps 104
";

// Five lines: a call, a call within it, and both returns.
const NESTED: &[u8] = b"call in shop 0 95 99 3 0 0 0 : 1 2 3 4 5
call out till 2 92 94 3 0 0 0 : 1 2 3
ret out till 2 92 94 6 : 1 2 3
ret in shop 0 95 99 7 : 1 2 3 4 5
halted 7 steps 9
";

// An empty range.
const EMPTY: &[u8] = b"call out a 0 5 4 0 0 0 0 :
halted 0 steps 1
";

fn shows(rt: &impl Abort, alloc: Global, text: &[u8], piece: &str) -> Result<(), AllocError> {
    let Ok(picture) = draw(alloc, text) else {
        assert!(rt; false, "drawn");
        return Ok(());
    };
    let picture = String::from_utf8_lossy(alloc, picture.as_slice())?;
    assert!(rt; picture.as_str().contains(piece), "{piece}");
    Ok(())
}

#[test]
fn an_open_frame_is_dashed(rt: HostRuntime) -> Result<(), Fail> {
    let alloc = rt.alloc();
    shows(
        &rt,
        alloc,
        FAILED,
        "<title>failed 4096 F4 steps 104</title>",
    )?;
    shows(
        &rt,
        alloc,
        FAILED,
        "<path class=\"fo\" d=\"M564 284H794V364H564z\"/>",
    )?;
    shows(
        &rt,
        alloc,
        FAILED,
        "<path class=\"out\" d=\"M564 364H780V408H564z\"/>",
    )?;
    shows(
        &rt,
        alloc,
        FAILED,
        "<path class=\"in\" d=\"M348 284H564V408H348z\"/>",
    )?;
    Ok(())
}

#[test]
fn frames_nest(rt: HostRuntime) -> Result<(), Fail> {
    let alloc = rt.alloc();
    shows(
        &rt,
        alloc,
        NESTED,
        "<path class=\"fr\" d=\"M348 284H996V364H348z\"/>",
    )?;
    shows(
        &rt,
        alloc,
        NESTED,
        "<path class=\"fr\" d=\"M564 364H780V412H564z\"/>",
    )?;
    shows(
        &rt,
        alloc,
        NESTED,
        "<path class=\"cl\" d=\"M780 364L780 412\"/>",
    )?;
    Ok(())
}

#[test]
fn an_empty_range_has_no_box(rt: HostRuntime) -> Result<(), Fail> {
    shows(
        &rt,
        rt.alloc(),
        EMPTY,
        "<title>call out a 0 5 4 0 0 0 0 :</title>",
    )?;
    Ok(())
}

#[test]
fn no_trace_is_drawn(rt: HostRuntime) -> Result<(), Fail> {
    let drawn = draw(rt.alloc(), b"");
    assert!(rt; matches!(drawn, Err(DrawFault::Audit(AuditFault::Form(1)))));
    Ok(())
}

#[test]
fn a_long_text_is_refused(rt: HostRuntime) -> Result<(), Fail> {
    let mut text = Vec::new(rt.alloc());
    for _ in 0..16_385 {
        text.push(b'\n')?;
    }
    assert!(rt; matches!(draw(rt.alloc(), text.as_slice()), Err(DrawFault::TooLong)));
    Ok(())
}
