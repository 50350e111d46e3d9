//! What each instruction asks of the kinds of the registers, where it may jump, and the row after it.
ghost use Rattle.std.specs.Prelude.{◌≡◌, Some, None};
ghost use Rattle.lcm_machine.specs.Table.{is_pc};
ghost use Rattle.call_sequence.specs.Flow.{flow, ask, into, source, is_area, seen, seen_operand, gets, taken};
ghost use Rattle.call_sequence.specs.Flow.{take_from, led, led_to, cca_of, shows_nothing};

use crate::kinds::{all_below_any, below_any, kind_of, set_kind};
use call_sequence::{Flow, Row};
use component_file::{Kind, LAST_OFFSET};
use lcm_isa::{Instr, Operand, Reg};

fn is_pc(r: Reg) -> bool
    ensures { result ≡ is_pc r }
{
    matches!(r, Reg::Pc)
}

// The kind of a register that is read. pc leads to the instruction itself.
fn source(at: u32, row: &Row, r: Reg) -> Kind
    ensures { result ≡ source at row.now r }
{
    if is_pc(r) {
        Kind::Pc(at)
    } else {
        kind_of(row, r)
    }
}

fn seen(at: u32, row: &Row, r: Reg) -> bool
    ensures { result ≡ seen at row.now r }
{
    !matches!(source(at, row, r), Kind::Top)
}

fn seen_operand(at: u32, row: &Row, n: Operand) -> bool
    ensures { result ≡ seen_operand at row.now n }
{
    match n {
        Operand::R(r) => seen(at, row, r),
        Operand::Imm(_) => true,
    }
}

fn is_area(kind: Kind) -> bool
    ensures { result ≡ is_area kind }
{
    matches!(kind, Kind::DataCap | Kind::Stk)
}

fn gets(row: Row, r: Reg, kind: Kind) -> Flow
    ensures { result ≡ gets row r kind }
{
    Flow::Flows(None, Some(set_kind(row, r, kind)))
}

fn taken(kind: Kind) -> Kind
    ensures { result ≡ taken kind }
{
    match kind {
        Kind::Stk => Kind::Int,
        other => other,
    }
}

// The row once the word of a register is taken.
fn take_from(row: Row, r: Reg) -> Row
    ensures { result ≡ take_from row r }
{
    if is_pc(r) {
        return row;
    }
    set_kind(row, r, taken(kind_of(&row, r)))
}

// A register gets an integer, where what is read may be read.
#[tactic(auto, unfolding(call_sequence::specs::Flow::ask))]
fn int_into(row: Row, r: Reg, may: bool) -> Flow
    ensures { result ≡ into r (ask 6 may (gets row r Kind.Int)) }
{
    if is_pc(r) {
        return Flow::Breaks(5);
    }
    if !may {
        return Flow::Breaks(6);
    }
    gets(row, r, Kind::Int)
}

#[tactic(auto, unfolding(call_sequence::specs::Flow::flow, call_sequence::specs::Flow::ask))]
fn flow_copy(at: u32, row: Row, r1: Reg, r2: Reg) -> Flow
    ensures { result ≡ flow (Instr.Move r1 (Operand.R r2)) at row }
{
    if is_pc(r1) {
        return Flow::Breaks(5);
    }
    if !seen(at, &row, r2) {
        return Flow::Breaks(6);
    }
    gets(take_from(row, r2), r1, source(at, &row, r2))
}

#[tactic(auto, unfolding(call_sequence::specs::Flow::flow, call_sequence::specs::Flow::ask))]
fn flow_move(at: u32, row: Row, r1: Reg, n: Operand) -> Flow
    ensures { result ≡ flow (Instr.Move r1 n) at row }
{
    match n {
        Operand::R(r2) => flow_copy(at, row, r1, r2),
        Operand::Imm(_) => int_into(row, r1, true),
    }
}

#[tactic(auto, unfolding(call_sequence::specs::Flow::flow, call_sequence::specs::Flow::ask))]
fn flow_store(at: u32, row: Row, r1: Reg, r2: Reg) -> Flow
    ensures { result ≡ flow (Instr.Store r1 r2) at row }
{
    if !is_area(source(at, &row, r1)) || !below_any(source(at, &row, r2)) {
        return Flow::Breaks(6);
    }
    Flow::Flows(None, Some(take_from(row, r2)))
}

#[tactic(auto, unfolding(call_sequence::specs::Flow::flow, call_sequence::specs::Flow::ask))]
fn flow_load(at: u32, row: Row, r1: Reg, r2: Reg) -> Flow
    ensures { result ≡ flow (Instr.Load r1 r2) at row }
{
    if is_pc(r1) {
        return Flow::Breaks(5);
    }
    if !is_area(source(at, &row, r2)) {
        return Flow::Breaks(6);
    }
    gets(row, r1, Kind::Any)
}

#[tactic(auto, unfolding(call_sequence::specs::Flow::flow, call_sequence::specs::Flow::ask))]
fn flow_jmp(at: u32, row: Row, r1: Reg) -> Flow
    ensures { result ≡ flow (Instr.Jmp r1) at row }
{
    match source(at, &row, r1) {
        Kind::Pc(o) => Flow::Flows(Some(o), None),
        _ => Flow::Breaks(6),
    }
}

#[tactic(auto, unfolding(call_sequence::specs::Flow::flow, call_sequence::specs::Flow::ask))]
fn flow_jnz(at: u32, row: Row, r1: Reg, r2: Reg) -> Flow
    ensures { result ≡ flow (Instr.Jnz r1 r2) at row }
{
    if !seen(at, &row, r2) {
        return Flow::Breaks(6);
    }
    match source(at, &row, r1) {
        Kind::Pc(o) => Flow::Flows(Some(o), Some(row)),
        _ => Flow::Breaks(6),
    }
}

// The offset that an immediate leads to, if it can be one.
fn led(from: u32, z: i32) -> Option<u32>
    ensures { result ≡ led from z }
{
    let to = i64::from(from) + i64::from(z);
    if (0..=i64::from(LAST_OFFSET)).contains(&to) {
        Some(to as u32)
    } else {
        None
    }
}

fn led_to(row: Row, r: Reg, to: Option<u32>) -> Flow
    ensures { result ≡ led_to row r to }
{
    match to {
        Some(o) => gets(row, r, Kind::Pc(o)),
        None => Flow::Breaks(6),
    }
}

fn cca_of(row: Row, r: Reg, kind: Kind, n: Operand) -> Flow
    ensures { result ≡ cca_of row r kind n }
{
    match kind {
        Kind::DataCap | Kind::Stk => Flow::Flows(None, Some(row)),
        Kind::Pc(o) => {
            match n {
                Operand::Imm(z) => led_to(row, r, led(o, z)),
                Operand::R(_) => Flow::Breaks(6),
            }
        }
        _ => Flow::Breaks(6),
    }
}

#[tactic(auto, unfolding(call_sequence::specs::Flow::flow, call_sequence::specs::Flow::ask))]
fn flow_cca(at: u32, row: Row, r1: Reg, n: Operand) -> Flow
    ensures { result ≡ flow (Instr.Cca r1 n) at row }
{
    if is_pc(r1) {
        return Flow::Breaks(5);
    }
    if !seen_operand(at, &row, n) {
        return Flow::Breaks(6);
    }
    cca_of(row, r1, kind_of(&row, r1), n)
}

// Every register but pc and data.
const HANDED: [Reg; 14] = [
    Reg::Rcode,
    Reg::Rdata,
    Reg::Stk,
    Reg::T1,
    Reg::T2,
    Reg::C1,
    Reg::C2,
    Reg::A0,
    Reg::A1,
    Reg::A2,
    Reg::A3,
    Reg::G0,
    Reg::G1,
    Reg::G2,
];

#[tactic(auto, unfolding(call_sequence::specs::Flow::shows_nothing))]
fn shows_nothing(row: &Row) -> bool
    ensures { result ≡ shows_nothing row.now }
{
    all_below_any(row, &HANDED)
}

#[tactic(auto, unfolding(call_sequence::specs::Flow::flow, call_sequence::specs::Flow::ask))]
fn flow_xjmp(at: u32, row: Row, r1: Reg, r2: Reg) -> Flow
    ensures { result ≡ flow (Instr.Xjmp r1 r2) at row }
{
    if !below_any(source(at, &row, r1)) || !below_any(source(at, &row, r2)) {
        return Flow::Breaks(6);
    }
    if !shows_nothing(&row) {
        return Flow::Breaks(10);
    }
    Flow::Flows(None, None)
}

/// What an instruction at an offset comes to, before which a row is current.
#[tactic(auto, unfolding(call_sequence::specs::Flow::flow))]
pub(crate) fn flow_at(instr: Instr, at: u32, row: Row) -> Flow
    ensures { result ≡ flow instr at row }
{
    match instr {
        Instr::Fail | Instr::Halt => Flow::Flows(None, None),
        Instr::Jmp(r1) => flow_jmp(at, row, r1),
        Instr::Jnz(r1, r2) => flow_jnz(at, row, r1, r2),
        Instr::Gettype(r1, r2)
        | Instr::Geta(r1, r2)
        | Instr::Getb(r1, r2)
        | Instr::Gete(r1, r2)
        | Instr::Getp(r1, r2)
        | Instr::Getlin(r1, r2) => int_into(row, r1, seen(at, &row, r2)),
        Instr::Lt(r1, r2, n) | Instr::Plus(r1, r2, n) | Instr::Minus(r1, r2, n) => {
            int_into(row, r1, seen(at, &row, r2) && seen_operand(at, &row, n))
        }
        Instr::Move(r1, n) => flow_move(at, row, r1, n),
        Instr::Store(r1, r2) => flow_store(at, row, r1, r2),
        Instr::Load(r1, r2) => flow_load(at, row, r1, r2),
        Instr::Cca(r1, n) => flow_cca(at, row, r1, n),
        Instr::Xjmp(r1, r2) => flow_xjmp(at, row, r1, r2),
        Instr::Restrict(..)
        | Instr::Cseal(..)
        | Instr::Seta2b(_)
        | Instr::Split(..)
        | Instr::Splice(..) => Flow::Breaks(5),
    }
}
