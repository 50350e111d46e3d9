//! The words of calls, returns and entries.
ghost use Rattle.std.specs.Prelude.{◌≡◌, ◌<◌, ◌≤◌, ◌+◌, pos};
ghost use Rattle.lcm_isa.specs.Numbers.{number_of};
ghost use Rattle.call_sequence.specs.Sequences.{distance, numbers, call_code, return_code, entry_code};

use crate::{CALL_WORDS, ENTRY_WORDS, RETURN_WORDS};
use cap_words::LAST_PLACE;
use component_file::{LAST_OFFSET, MOST_SITES};
use lcm_isa::{Instr, Operand, Reg, encode};

const ZERO: Operand = Operand::Imm(0);

const ONE: Operand = Operand::Imm(1);

const PC: Operand = Operand::R(Reg::Pc);

// The immediate that leads from an offset to another.
fn distance(from: u32, to: u32) -> Operand
    requires from_fits { from ≤ LAST_PLACE }
    requires to_fits { to ≤ LAST_PLACE }
    ensures { result ≡ Operand.Imm (distance from to) }
{
    Operand::Imm(to as i32 - from as i32)
}

fn immediate(number: u32) -> Operand
    requires { number ≤ LAST_PLACE }
    ensures { result ≡ Operand.Imm (pos number) }
{
    Operand::Imm(number as i32)
}

fn word(instr: Instr) -> i64
    ensures { result ≡ pos (number_of instr) }
{
    encode(&instr)
}

/// The words of a call.
///
/// `literal` is the offset in the code of the seal capability over the part's return seals, `at`
/// that of the call's first word, and `site` the number of the call, by which it has a seal of its
/// own.
#[tactic(auto, unfolding(crate::specs::Sequences::call_code))]
pub fn call_words(literal: u32, at: u32, site: u32) -> [i64; CALL_WORDS as usize]
    requires literal_fits { literal ≤ LAST_OFFSET }
    requires at_fits { at ≤ LAST_OFFSET }
    requires site_fits { site < MOST_SITES }
    ensures { result ≡ numbers (call_code literal at site) }
{
    let (t1, t2, stk) = (Reg::T1, Reg::T2, Reg::Stk);
    let (rcode, rdata) = (Reg::Rcode, Reg::Rdata);
    [
        word(Instr::Store(stk, Reg::Dat)),
        word(Instr::Move(t1, PC)),
        word(Instr::Cca(t1, distance(at + 1, literal))),
        word(Instr::Load(t2, t1)),
        word(Instr::Cca(t2, immediate(site))),
        word(Instr::Geta(t1, stk)),
        word(Instr::Minus(t1, t1, ONE)),
        word(Instr::Split(stk, rdata, stk, Operand::R(t1))),
        word(Instr::Cca(stk, Operand::Imm(-1))),
        word(Instr::Cseal(rdata, t2)),
        word(Instr::Move(rcode, PC)),
        word(Instr::Cca(rcode, Operand::Imm(6))),
        word(Instr::Cseal(rcode, t2)),
        word(Instr::Move(t1, ZERO)),
        word(Instr::Move(t2, ZERO)),
        word(Instr::Xjmp(Reg::C1, Reg::C2)),
    ]
}

/// The words of a return.
///
/// `fail` is the offset in the code of the part's instruction `fail`, `at` that of the return's
/// first word, and `stack_base` the address at which the stack begins.
#[tactic(auto, unfolding(crate::specs::Sequences::return_code))]
pub fn return_words(fail: u32, at: u32, stack_base: u32) -> [i64; RETURN_WORDS as usize]
    requires fail_fits { fail ≤ LAST_OFFSET }
    requires at_fits { at ≤ LAST_OFFSET }
    requires base_fits { stack_base ≤ LAST_PLACE }
    ensures { result ≡ numbers (return_code fail at stack_base) }
{
    let (t1, t2, stk) = (Reg::T1, Reg::T2, Reg::Stk);
    [
        word(Instr::Splice(stk, stk, Reg::Dat)),
        word(Instr::Getb(t1, stk)),
        word(Instr::Minus(t1, t1, immediate(stack_base))),
        word(Instr::Move(t2, PC)),
        word(Instr::Cca(t2, distance(at + 3, fail))),
        word(Instr::Jnz(t2, t1)),
        word(Instr::Load(Reg::Dat, stk)),
        word(Instr::Move(t1, ZERO)),
        word(Instr::Store(stk, t1)),
        word(Instr::Move(t2, ZERO)),
    ]
}

/// The words of an entry.
///
/// `fail` is the offset in the code of the part's instruction `fail`, `at` that of the entry's first
/// word, and `stack_base` the address at which the stack begins.
#[tactic(auto, unfolding(crate::specs::Sequences::entry_code))]
pub fn entry_words(fail: u32, at: u32, stack_base: u32) -> [i64; ENTRY_WORDS as usize]
    requires fail_fits { fail ≤ LAST_OFFSET }
    requires at_fits { at ≤ LAST_OFFSET }
    requires base_fits { stack_base ≤ LAST_PLACE }
    ensures { result ≡ numbers (entry_code fail at stack_base) }
{
    let (t1, t2, stk) = (Reg::T1, Reg::T2, Reg::Stk);
    [
        word(Instr::Move(t2, PC)),
        word(Instr::Cca(t2, distance(at, fail))),
        word(Instr::Gettype(t1, stk)),
        word(Instr::Minus(t1, t1, ONE)),
        word(Instr::Jnz(t2, t1)),
        word(Instr::Getlin(t1, stk)),
        word(Instr::Minus(t1, t1, ONE)),
        word(Instr::Jnz(t2, t1)),
        word(Instr::Getp(t1, stk)),
        word(Instr::Minus(t1, t1, Operand::Imm(2))),
        word(Instr::Jnz(t2, t1)),
        word(Instr::Getb(t1, stk)),
        word(Instr::Minus(t1, t1, immediate(stack_base))),
        word(Instr::Jnz(t2, t1)),
        word(Instr::Seta2b(stk)),
        word(Instr::Gete(t1, stk)),
        word(Instr::Minus(t1, t1, immediate(stack_base))),
        word(Instr::Cca(stk, Operand::R(t1))),
        word(Instr::Move(t1, ZERO)),
        word(Instr::Move(t2, ZERO)),
    ]
}
