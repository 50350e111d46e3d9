//! Parts of texts, and their starts.
//!
//! Each value that owns much goes to a function of its own: each way out of a function that has one is
//! proved at length.
ghost use Rattle.authority_report.specs.Entered.{IsLinked};
ghost use Rattle.std.specs.Prelude.{◌≡◌, None, IfOk};

use assembler::assemble;
use component_file::Component;
use component_linker::{Part, Start, accept, link};
use std::alloc::{AllocError, Global};
use std::process::Abort;

fn assembled(rt: &impl Abort, alloc: Global, text: &str) -> Component {
    assert!(rt; text.len() < 100_000);
    match assemble(alloc, text.as_bytes()) {
        Ok(component) => component,
        Err(fault) => panic!(rt; "{text} has fault {} at {}", fault.number(), fault.place()),
    }
}

/// The part of a text.
pub(crate) fn part(rt: &impl Abort, alloc: Global, text: &str, trusted: bool) -> Part {
    match accept(assembled(rt, alloc, text), trusted) {
        Ok(part) => part,
        Err(broken) => panic!(rt; "{text} breaks {broken}"),
    }
}

fn push_parts(
    rt: &impl Abort,
    alloc: Global,
    parts: &mut Vec<Part>,
    texts: &[(bool, &str)],
) -> Result<(), AllocError> {
    for (trusted, text) in texts {
        parts.push(part(rt, alloc, text, *trusted))?;
    }
    Ok(())
}

// The start of parts with a stack of 64 words, 65,536 to 65,599.
fn linked(rt: &impl Abort, alloc: Global, parts: &[Part]) -> Start
    ensures { (result.state.count ≡ 0) × (result.state.end ≡ None) × IsLinked result }
{
    assert!(rt; parts.len() < 100);
    match link(alloc, parts, 64) {
        Ok(start) => start,
        Err(fault) => panic!(rt; "{fault}"),
    }
}

/// The start of the parts of texts, each with whether it is trusted.
pub(crate) fn started(
    rt: &impl Abort,
    alloc: Global,
    texts: &[(bool, &str)],
) -> Result<Start, AllocError>
    ensures { IfOk result (λ s. (s.state.count ≡ 0) × (s.state.end ≡ None) × IsLinked s) }
{
    let mut parts: Vec<Part> = Vec::new(alloc);
    push_parts(rt, alloc, &mut parts, texts)?;
    Ok(linked(rt, alloc, &parts))
}
