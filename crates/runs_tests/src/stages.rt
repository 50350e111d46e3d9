//! What an entry, a call and a return of the overlay leave in registers, in memory and in frames, which no
//! command shows. Each word was worked out by hand from docs/OVERLAY.md.
ghost use Rattle.std.specs.Prelude.{◌≡◌, None, IfOk};

use crate::parts::started;
use component_linker::Start;
use lcm_isa::Reg;
use overlay_machine::{OStep, Overlay};
use std::alloc::{AllocError, Global};
use std::process::Abort;
use std::test::Fail;
use worked_parts::Piece::{Entry, Lines, Site};
use worked_parts::{Piece, text};

// The trusted part `t`. Its code is from 4096 on: `fail`, the literal, the entry `main` at offset 2, and a
// call; the entry `again` and a second call. After the calls it halts. Data is from 8192 on: the words of
// two imports, and two more.
static FIRST: [Piece; 6] = [
    Lines(
        ".name t\n.stack 65536\n.closure 10\n.seals 11 2\n.code 4096\nstop: fail\nlit: .seal 11 12 11\n",
    ),
    Entry("main"),
    Lines("load c1 data\ncca data 1\nload c2 data\n"),
    Site("first", "0"),
    Lines("halt\n"),
    Entry("again"),
];

const LOAD_BACK: &str = "cca data 2\nload c1 data\ncca data 1\nload c2 data\n";

static SECOND: [Piece; 2] = [
    Site("second", "1"),
    Lines(
        "halt\n.data 8192\n.int 0\n.int 0\n.int 0\n.int 0\n.int 0\n.int 0\n.import adv go 0\n\
         .import adv back 2\n.export again again shared\n.export main main shared\n.site first\n\
         .site second\n.fail stop\n.literal lit\n",
    ),
];

// The part `adv`, which isn't trusted. Its code is from 12,288 on, its data from 16,384 on: the words of two
// imports, and one more.
const ADV_BEGIN: &str = ".name adv\n.stack 65536\n.closure 20\n.code 12288\ngo: ";

const ADV_END: &str =
    "back: halt\n.data 16384\n.int 0\n.int 0\n.int 0\n.int 0\n.int 0\n.import t again 0\n\
    .import adv back 2\n.export back back shared\n.export go go shared\n";

/// The start of `t` with these lines before its second call, and of `adv` with this code.
pub(crate) fn start_of(
    rt: &impl Abort,
    alloc: Global,
    second: &str,
    go: &str,
) -> Result<Start, AllocError>
    ensures { IfOk result (λ s. (s.state.count ≡ 0) × (s.state.end ≡ None)) }
{
    let (first, rest) = (text(alloc, &FIRST)?, text(alloc, &SECOND)?);
    let trusted = format!(in alloc; "{first}{LOAD_BACK}{second}{rest}")?;
    let adv = format!(in alloc; "{ADV_BEGIN}{go}{ADV_END}")?;
    started(
        rt,
        alloc,
        &[(true, trusted.as_str()), (false, adv.as_str())],
    )
}

fn stands_for(rt: &impl Abort, overlay: &Overlay, words: &[(Reg, &str)]) {
    for (r, text) in words {
        assert_eq!(rt; overlay.flat_text(overlay.reg(*r)).as_str(), *text);
    }
}

// Steps that go, up to this weight.
fn step_to(rt: &impl Abort, overlay: &mut Overlay, weight: u64) {
    for _ in 0..10 {
        assert!(rt; overlay.weight() < 100);
        if overlay.weight() < weight {
            assert!(rt; matches!(overlay.step(), OStep::Went(_)));
        }
    }
    assert_eq!(rt; overlay.weight(), weight);
}

// The word of the highest address of the stack: in the newest frame, or in memory.
fn top_is(rt: &impl Abort, overlay: &Overlay, framed: bool, text: &str) {
    assert_eq!(rt; overlay.has_cell(65_599), !framed);
    let word = if overlay.has_cell(65_599) {
        overlay.cell(65_599)
    } else {
        assert!(rt; overlay.frame_size() == 1);
        overlay.frame_word(0)
    };
    assert_eq!(rt; overlay.flat_text(word).as_str(), text);
}

fn stages_are(rt: &impl Abort, overlay: &mut Overlay) {
    for (weight, words, framed, top) in &STAGES {
        step_to(rt, overlay, *weight);
        stands_for(rt, overlay, words);
        top_is(rt, overlay, *framed, top);
    }
}

fn leaves(rt: &impl Abort, alloc: Global, start: &Start) -> Result<(), AllocError> {
    let mut overlay = Overlay::of_start(alloc, start)?;
    stages_are(rt, &mut overlay);
    Ok(())
}

#[test]
fn what_an_entry_a_call_and_a_return_leave(rt: HostRuntime) -> Result<(), Fail> {
    let start = start_of(&rt, rt.alloc(), "", "xjmp rcode rdata\n")?;
    leaves(&rt, rt.alloc(), &start)?;
    Ok(())
}

// The weight so far, what registers stand for, whether the stack's highest word is in a frame, and that word.
type Stage = (u64, &'static [(Reg, &'static str)], bool, &'static str);

static STAGES: [Stage; 3] = [
    (20, &ENTERED, false, "0"),
    (39, &CALLED, true, "cap(rw,nor,8192,8197,8193)"),
    (50, &RETURNED, false, "0"),
];

const ENTERED: [(Reg, &str); 4] = [
    (Reg::Pc, "cap(rx,nor,4096,4198,4118)"),
    (Reg::Stk, "cap(rw,lin,65536,65599,65599)"),
    (Reg::T1, "0"),
    (Reg::T2, "0"),
];

const CALLED: [(Reg, &str); 7] = [
    (Reg::Pc, "cap(rwx,nor,12288,12289,12288)"),
    (Reg::Dat, "cap(rw,nor,16384,16388,16384)"),
    (Reg::Rcode, "sealed(11,cap(rx,nor,4096,4198,4137))"),
    (Reg::Rdata, "sealed(11,cap(rw,lin,65599,65599,65599))"),
    (Reg::Stk, "cap(rw,lin,65536,65598,65598)"),
    (Reg::T1, "0"),
    (Reg::T2, "0"),
];

const RETURNED: [(Reg, &str); 7] = [
    (Reg::Pc, "cap(rx,nor,4096,4198,4147)"),
    (Reg::Dat, "cap(rw,nor,8192,8197,8193)"),
    (Reg::Rcode, "sealed(11,cap(rx,nor,4096,4198,4137))"),
    (Reg::Rdata, "0"),
    (Reg::Stk, "cap(rw,lin,65536,65599,65599)"),
    (Reg::T1, "0"),
    (Reg::T2, "0"),
];
