//! What a start tells of its parts, by its calls, and the report of one part. Each number was worked out by
//! hand.
ghost use Rattle.authority_report.specs.Entered.{IsLinked};

use crate::parts::started;
use authority_report::{Reach, report};
use component_linker::{Owner, Start};
use lcm_isa::Reg;
use std::alloc::{AllocError, Global};
use std::process::Abort;
use std::test::Fail;
use worked_parts::{BACK, CALLER, text};

/// A movable part. With `CALLER`, `BACK` and a stack up to 65,599 it comes to stand 65,501 addresses and 14
/// seals further on: code 65,601, data 65,701 to 65,705, seals 21, 22 and 23.
const MOVABLE: &str = "\
.name mov
.stack 65536
.closure 7
.movable
.seals 8 2
.code 100
.int 1
.data 200
.int 0
.int 0
.int 0
.int 0
.int 0
.import adv go 1
.import t main 3";

fn has_calls(owner: &Owner, wanted: &[(&str, &str, u32)]) -> bool {
    let calls = owner.calls.as_slice();
    calls.len() == wanted.len()
        && calls.iter().zip(wanted).all(|(call, (part, name, at))| {
            call.part.as_slice() == part.as_bytes()
                && call.name.as_slice() == name.as_bytes()
                && call.at == *at
        })
}

fn has_entries(owner: &Owner, wanted: &[(&str, u32)]) -> bool {
    let entries = owner.entries.as_slice();
    entries.len() == wanted.len()
        && entries.iter().zip(wanted).all(|(entry, (name, at))| {
            entry.name.as_slice() == name.as_bytes() && entry.at == *at
        })
}

// Its part, whether it is trusted, where its code and data stand, its closure seal, and the first and the
// count of its return seals.
fn owner_is(rt: &impl Abort, owner: &Owner, trusted: bool, wanted: [u32; 8]) {
    let (code, data, seals) = (&owner.code, &owner.data_span, &owner.seals);
    let found = [
        owner.part,
        code.base,
        code.end,
        data.base,
        data.end,
        owner.closure,
        seals.base(),
        seals.count(),
    ];
    assert_eq!(rt; (owner.trusted, found), (trusted, wanted));
}

// In the order of their code.
fn owners_are(rt: &impl Abort, start: &Start) {
    let [caller, back, movable] = start.owners() else {
        panic!(rt; "not three owners");
    };
    owner_is(rt, caller, true, [2, 4096, 4147, 8192, 8193, 10, 11, 1]);
    assert!(rt;
        has_calls(caller, &[("adv", "go", 8192)]) && has_entries(caller, &[("main", 4098)])
    );
    owner_is(
        rt,
        back,
        false,
        [1, 12_288, 12_288, 16_384, 16_384, 20, 0, 0],
    );
    assert!(rt; has_calls(back, &[]) && has_entries(back, &[("go", 12_288)]));
    owner_is(
        rt,
        movable,
        false,
        [0, 65_601, 65_601, 65_701, 65_705, 21, 22, 2],
    );
    let calls = [("adv", "go", 65_702), ("t", "main", 65_704)];
    assert!(rt; has_calls(movable, &calls) && has_entries(movable, &[]));
}

fn start_is(rt: &impl Abort, start: &Start) {
    owners_are(rt, start);
    let [site] = start.sites() else {
        panic!(rt; "not one site");
    };
    assert_eq!(rt;
        (site.part, site.index, site.seal, site.at),
        (2, 0, 11, 4121)
    );
    let stack = start.stack();
    assert_eq!(rt; (stack.base, stack.end), (65_536, 65_599));
    assert_eq!(rt; (start.state().count(), start.state().pc_at()), (0, 4098));
}

// The code is the first of three spans, beside the data and the stack; and the seal in the literal.
fn reach_is(rt: &impl Abort, reach: &Reach) {
    let [code, _, _] = reach.spans.as_slice() else {
        panic!(rt; "not three spans");
    };
    assert_eq!(rt; (code.base, code.end), (4096, 4147));
    assert!(rt; code.read && !code.write && code.run);
    assert_eq!(rt; reach.seals.as_slice().len(), 1);
    for range in reach.seals.as_slice() {
        assert_eq!(rt; (range.base(), range.count()), (11, 1));
    }
}

fn caller_reaches(rt: &impl Abort, alloc: Global, start: &Start) -> Result<(), AllocError>
    requires { IsLinked start.now }
{
    assert!(rt; start.owners().len() == 3);
    reach_is(rt, &report(alloc, start, 2)?);
    Ok(())
}

fn is_told(rt: &impl Abort, alloc: Global, caller: &str) -> Result<(), AllocError> {
    let start = started(
        rt,
        alloc,
        &[(false, MOVABLE), (false, BACK), (true, caller)],
    )?;
    start_is(rt, &start);
    caller_reaches(rt, alloc, &start)?;
    let state = start.into_state();
    assert_eq!(rt; state.reg(Reg::A0).face().int(), Some(0));
    Ok(())
}

#[test]
fn a_start_tells_of_its_parts(rt: HostRuntime) -> Result<(), Fail> {
    let caller = text(rt.alloc(), &CALLER)?;
    is_told(&rt, rt.alloc(), caller.as_str())?;
    Ok(())
}
