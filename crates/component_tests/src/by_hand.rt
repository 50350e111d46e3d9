//! A machine by its calls: words that linked parts never come to, a step that is taken back, a word that is
//! lifted. Each end was worked out by hand from docs/MACHINE.md.
use cap_words::{Cap, Held, Lin, Perm, Sealable, Word};
use lcm_isa::{Instr, Reg, encode};
use lcm_machine::{FailCause, LcmState, Place, Span, Step};
use std::alloc::{AllocError, Global};
use std::process::Abort;
use std::test::Fail;

/// What a register holds by hand.
#[derive(Clone, Copy)]
enum Given {
    /// A linear capability over the code, in pc.
    LinearCode,
    /// A capability that goes on past the memory, at an address without a cell, in pc.
    LongCode,
    /// The first under a seal, in a3.
    SealedCode,
    /// A capability at an address without a cell, in g0.
    NoCells,
}

static CASES: [(Given, Instr, FailCause, i64); 5] = [
    (Given::LinearCode, Instr::Halt, FailCause::F1, 100),
    (Given::LongCode, Instr::Halt, FailCause::F2, 111),
    (
        Given::SealedCode,
        Instr::Xjmp(Reg::A3, Reg::C2),
        FailCause::F10,
        100,
    ),
    (
        Given::NoCells,
        Instr::Store(Reg::G0, Reg::T1),
        FailCause::F8,
        100,
    ),
    (
        Given::NoCells,
        Instr::Load(Reg::T1, Reg::G0),
        FailCause::F8,
        100,
    ),
];

fn code(lin: Lin, long: bool) -> Cap {
    if long {
        Cap::new(Perm::Rx, lin, 100, 120, 111)
    } else {
        Cap::new(Perm::Rx, lin, 100, 110, 100)
    }
}

fn word_of(given: Given) -> (Reg, Word) {
    match given {
        Given::LinearCode => (Reg::Pc, Word::Mem(code(Lin::Linear, false))),
        Given::LongCode => (Reg::Pc, Word::Mem(code(Lin::Normal, true))),
        Given::SealedCode => {
            let sealed = Word::Sealed(5, Sealable::Mem(code(Lin::Linear, false)));
            (Reg::A3, sealed)
        }
        Given::NoCells => {
            let cap = Cap::new(Perm::Rw, Lin::Linear, 110, 120, 115);
            (Reg::G0, Word::Mem(cap))
        }
    }
}

fn set(machine: &mut LcmState, register: Reg, word: Word) {
    machine.set(Place::R(register), Held::of(word));
}

// Cells 100 to 110, with this instruction in cell 100, where pc stands, and a sealed data half in c2.
fn start(alloc: Global, instr: Instr) -> Result<LcmState, AllocError> {
    let mut machine = LcmState::make(
        alloc,
        &[Span {
            base: 100,
            end: 110,
        }],
    )?;
    if machine.has_cell(100) {
        machine.set(Place::Cell(100), Held::of(Word::Int(encode(&instr))));
    }
    set(&mut machine, Reg::Pc, Word::Mem(code(Lin::Normal, false)));
    let half = Cap::new(Perm::Rw, Lin::Linear, 200, 300, 250);
    set(&mut machine, Reg::C2, Word::Sealed(5, Sealable::Mem(half)));
    Ok(machine)
}

fn fails(rt: &impl Abort, machine: &mut LcmState, given: Given, cause: FailCause, at: i64) {
    let (register, word) = word_of(given);
    set(machine, register, word);
    assert!(rt; machine.count() == 0);
    assert!(rt; matches!(machine.step(), Step::Failed(why, pc) if why == cause && pc == at));
    assert_eq!(rt; machine.count(), 1);
}

#[test]
fn words_by_hand_fail(rt: HostRuntime) -> Result<(), Fail> {
    for (given, instr, cause, at) in &CASES {
        let mut machine = start(rt.alloc(), *instr)?;
        fails(&rt, &mut machine, *given, *cause, *at);
    }
    Ok(())
}

// The step of an ended machine changes nothing, and nor does taking it back or letting it stand.
fn stays_ended(rt: &impl Abort, machine: &mut LcmState) {
    assert!(rt; machine.count() == 0);
    let (first, undo) = machine.step_noted();
    undo.forget();
    assert!(rt; machine.count() == 1);
    let (again, undo) = machine.step_noted();
    machine.undo(undo);
    let left = (first, again, machine.count(), machine.ended());
    assert!(rt; matches!(left, (Step::Halted, Step::Halted, 1, Some(Step::Halted))));
}

#[test]
fn a_step_of_an_ended_machine_is_taken_back(rt: HostRuntime) -> Result<(), Fail> {
    let mut machine = start(rt.alloc(), Instr::Halt)?;
    stays_ended(&rt, &mut machine);
    Ok(())
}

// Whether a register holds integer 0 once its word is lifted.
fn leaves_zero(machine: &mut LcmState, register: Reg) -> bool {
    machine.lift(Place::R(register)).give_up();
    machine.reg(register).face().int() == Some(0)
}

#[test]
fn a_linear_word_leaves_its_place(rt: HostRuntime) -> Result<(), Fail> {
    let mut machine = start(rt.alloc(), Instr::Halt)?;
    let left = (
        leaves_zero(&mut machine, Reg::C2),
        leaves_zero(&mut machine, Reg::Pc),
    );
    assert_eq!(rt; left, (true, false));
    Ok(())
}
