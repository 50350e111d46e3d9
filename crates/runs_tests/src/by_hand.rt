//! The overlay over words that are set by hand, since linked parts never come to them. The events and the
//! weights were worked out by hand from docs/OVERLAY.md.
use crate::stages::start_of;
use cap_words::{Cap, Held, Lin, Perm, Word};
use component_linker::Start;
use lcm_isa::Reg;
use lcm_machine::Place;
use overlay_machine::{OStep, Overlay};
use std::alloc::{AllocError, Global};
use std::process::Abort;
use std::test::Fail;
use trusted_border::{Back, Event};

/// A word that is set by hand.
#[derive(Clone, Copy)]
enum Given {
    /// The whole stack, as it is.
    Stack,
    Zero,
    NotLinear,
    ReadOnly,
    /// One above the stack's base.
    Higher,
    /// One past the stack's end.
    Longer,
    /// Over all but one word of the trusted code, at the first call.
    LessCode,
}

fn stack(perm: Perm, lin: Lin) -> Word {
    Word::Mem(Cap::new(perm, lin, 65_536, 65_599, 65_599))
}

fn word_of(given: Given) -> Word {
    match given {
        Given::Stack => stack(Perm::Rw, Lin::Linear),
        Given::Zero => Word::Int(0),
        Given::NotLinear => stack(Perm::Rw, Lin::Normal),
        Given::ReadOnly => stack(Perm::R, Lin::Linear),
        Given::Higher => Word::Mem(Cap::new(Perm::Rw, Lin::Linear, 65_537, 65_599, 65_599)),
        Given::Longer => Word::Mem(Cap::new(Perm::Rw, Lin::Linear, 65_536, 65_600, 65_599)),
        Given::LessCode => Word::Mem(Cap::new(Perm::Rx, Lin::Normal, 4096, 4197, 4121)),
    }
}

/// An event that a case tells.
#[derive(Clone, Copy)]
enum Told {
    /// The trusted part's call went, with a frame of one word.
    Called,
    /// The adversary entered, with that call's pair to return by.
    Entered,
}

fn is(event: Event, told: Told) -> bool {
    match told {
        Told::Called => matches!(
            event,
            Event::Called {
                trusted: false,
                site: 0,
                base: 65_599,
                end: 65_599,
            }
        ),
        Told::Entered => matches!(
            event,
            Event::Entered {
                part: 0,
                entry: 0,
                back: Back::Pair(0, 65_599),
            }
        ),
    }
}

/// How many steps the plain machine makes before it, the register and the word that are set, and then: the
/// events, whether it halts in place of failing, the weight of the steps that went, and what the last one
/// weighs.
type Case = (u64, Reg, Given, &'static [Told], bool, u64, u32);

// At the first call, before which there are 23 steps. With a pc that isn't over the whole code it is no
// call, and its instructions are carried out one by one.
static AT_THE_CALL: [Case; 7] = [
    (23, Reg::Stk, Given::Stack, &[Told::Called], true, 16, 1),
    (23, Reg::Stk, Given::Zero, &[], false, 0, 16),
    (23, Reg::Stk, Given::NotLinear, &[], false, 0, 16),
    (23, Reg::Stk, Given::ReadOnly, &[], false, 0, 16),
    (23, Reg::Stk, Given::Higher, &[], false, 0, 16),
    (23, Reg::Stk, Given::Longer, &[], false, 0, 16),
    (23, Reg::Pc, Given::LessCode, &[], true, 16, 1),
];

static AT_THE_ENTRY: [Case; 5] = [
    (0, Reg::Stk, Given::Stack, &[Told::Called], true, 39, 1),
    (0, Reg::Stk, Given::Zero, &[], false, 0, 20),
    (0, Reg::Stk, Given::NotLinear, &[], false, 0, 20),
    (0, Reg::Stk, Given::ReadOnly, &[], false, 0, 20),
    (0, Reg::Stk, Given::Higher, &[], false, 0, 20),
];

// The adversary enters with a second stack from g0, and the trusted part's second call fails: its frame would
// lie over the first, or the cursor is moved down by three words before it.
const SECOND: [Told; 2] = [Told::Called, Told::Entered];

const OVER: Case = (0, Reg::G0, Given::Stack, &SECOND, false, 68, 16);

const BELOW: Case = (0, Reg::G0, Given::Stack, &SECOND, false, 69, 16);

fn set(rt: &impl Abort, start: &mut Start, case: &Case) {
    let (steps, register, given, ..) = *case;
    assert!(rt; start.state().count() == 0 && steps < 100);
    let _ = start.state_mut().run(steps);
    let held = Held::of(word_of(given));
    start.state_mut().set(Place::R(register), held);
}

// The steps up to the end, each of which tells the next of the events or none.
fn ends_so(rt: &impl Abort, overlay: &mut Overlay, case: &Case) {
    let (_, _, _, events, halts, weight, own) = *case;
    let mut due = events.iter();
    for _ in 0..200 {
        assert!(rt; overlay.weight() < 10_000);
        let weighs = overlay.next_weight();
        match overlay.step() {
            OStep::Went(None) => {}
            OStep::Went(Some(event)) => assert!(rt;
                due.next().is_some_and(|told| is(event, *told))
            ),
            ended => {
                assert!(rt; matches!(ended, OStep::Halted) == halts);
                assert_eq!(rt; (overlay.weight(), weighs), (weight, own));
                break;
            }
        }
    }
    assert!(rt; due.next().is_none());
}

fn overlay_ends(
    rt: &impl Abort,
    alloc: Global,
    start: &Start,
    case: &Case,
) -> Result<(), AllocError> {
    let mut overlay = Overlay::of_start(alloc, start)?;
    ends_so(rt, &mut overlay, case);
    Ok(())
}

// What is before the trusted part's second call, the adversary's code, and the case.
fn runs(
    rt: &impl Abort,
    alloc: Global,
    second: &str,
    go: &str,
    case: &Case,
) -> Result<(), AllocError> {
    let mut start = start_of(rt, alloc, second, go)?;
    set(rt, &mut start, case);
    overlay_ends(rt, alloc, &start, case)
}

const STEALS: &str = "move stk g0\nload c1 data\ncca data 1\nload c2 data\nxjmp c1 c2\n";

#[test]
fn calls_and_entries_ask_for_the_stack(rt: HostRuntime) -> Result<(), Fail> {
    for case in &AT_THE_CALL {
        runs(&rt, rt.alloc(), "", "halt\n", case)?;
    }
    for case in &AT_THE_ENTRY {
        runs(&rt, rt.alloc(), "", "halt\n", case)?;
    }
    Ok(())
}

#[test]
fn a_second_stack_is_refused(rt: HostRuntime) -> Result<(), Fail> {
    runs(&rt, rt.alloc(), "", STEALS, &OVER)?;
    runs(&rt, rt.alloc(), "cca stk -3\n", STEALS, &BELOW)?;
    Ok(())
}
