//! Expressions.
ghost use Rattle.std.specs.Prelude.{◌≡◌, ◌≤◌, ◌<◌, ◌+◌, ◌-◌, ◌++◌, OnOk, length, drop};
ghost use Rattle.cap_words.specs.declared.TheConstants.{LAST_PLACE};
ghost use Rattle.component_file.specs.declared.TheConstants.{MOST_WORDS};
ghost use Rattle.proc_program.specs.Program.{Element, Binary};
ghost use Rattle.proc_program.specs.View.{args_of};
ghost use Rattle.proc_program.specs.Calls.{calls, args_calls};
ghost use Rattle.proc_program.specs.Limits.{arg_registers};
ghost use Rattle.proc_templates.specs.Templates.{exp_words, load_var, args_code, load_args, call_items};
ghost use Rattle.proc_templates.specs.Templates.{argument, arguments, zeros};
ghost use Rattle.proc_templates.specs.Sums.{values_words, loads_words, after_values, call_words};
ghost use Rattle.proc_templates.specs.Bounds.{PlaceBound, RowBound, HandleBound, ExpBound, ArgsBound};
ghost use Rattle.proc_compiler.specs.Drafts.{Emits, EmitsExp};

use crate::counts::ACCESS_WORDS;
use crate::draft::Draft;
use lcm_isa::{Instr, Operand, Reg};
use proc_language::{MOST_REGISTERS, Op};
use proc_program::{ArgExp, Array, Exp, ExpKind, Handle, Location};
use proc_templates::FrameShape;
use std::alloc::AllocError;

// A variable's value comes into g0.
#[tactic(auto, using(crate::proofs::Written::items))]
fn load_var(draft: &mut Draft, f: FrameShape, x: Location) -> Result<(), AllocError>
    requires frame { f.words ≤ MOST_WORDS }
    requires fits { PlaceBound f x }
    ensures { OnOk result (Emits (load_var f x) ACCESS_WORDS 0 draft.old draft.new) }
{
    match x {
        Location::Local(i) => draft.at_slot(f, i + 2, Instr::Load(Reg::G0, Reg::Stk)),
        Location::Global(o) => draft.at_glob(f.pairs + o, Instr::Load(Reg::G0, Reg::Dat)),
    }
}

/// An expression: its value comes into g0, and `slot` is the first slot that is free.
#[cycle(expr)]
#[tactic(auto, using(crate::proofs::Written::called))]
pub(crate) fn expr(draft: &mut Draft, f: FrameShape, e: &Exp, slot: u32) -> Result<(), AllocError>
    requires frame { f.words ≤ MOST_WORDS }
    requires fits { ExpBound f e.now }
    requires room { slot + exp_words e.now ≤ LAST_PLACE }
    requires placed { length draft.old.laid.code + exp_words e.now ≤ MOST_WORDS }
    requires seals { length draft.old.laid.sites + calls e.now ≤ draft.old.seals }
    ensures { OnOk result (EmitsExp f slot e.now draft.old draft.new) }
{
    match &e.kind {
        ExpKind::Number(n) => draft.put(Instr::Move(Reg::G0, Operand::Imm(*n as i32))),
        ExpKind::Load(x) => load_var(draft, f, *x),
        ExpKind::Element(row, index) => element(draft, f, *row, index, slot),
        ExpKind::Call(c) => call(draft, f, c.handle, c.args.as_slice(), slot),
        ExpKind::Binary(op, left, right) => operation(draft, f, *op, left, right, slot),
    }
}

// A binary operation: its value comes into g0.
#[cycle(expr)]
#[tactic(auto, using(crate::proofs::Written::operated))]
fn operation(
    draft: &mut Draft,
    f: FrameShape,
    op: Op,
    left: &Exp,
    right: &Exp,
    slot: u32,
) -> Result<(), AllocError>
    requires frame { f.words ≤ MOST_WORDS }
    requires left_fits { ExpBound f left.now }
    requires right_fits { ExpBound f right.now }
    requires room { slot + exp_words (Binary op left.now right.now) ≤ LAST_PLACE }
    requires placed { length draft.old.laid.code + exp_words (Binary op left.now right.now) ≤ MOST_WORDS }
    requires seals { length draft.old.laid.sites + calls (Binary op left.now right.now) ≤ draft.old.seals }
    ensures { OnOk result (EmitsExp f slot (Binary op left.now right.now) draft.old draft.new) }
{
    expr(draft, f, left, slot)?;
    draft.at_slot(f, slot, Instr::Store(Reg::Stk, Reg::G0))?;
    expr(draft, f, right, slot + 1)?;
    draft.put(Instr::Move(Reg::G1, Operand::R(Reg::G0)))?;
    draft.at_slot(f, slot, Instr::Load(Reg::G0, Reg::Stk))?;
    draft.operate(op)
}

// An element of an array: its value comes into g0.
#[cycle(expr)]
#[tactic(auto, using(crate::proofs::Written::items))]
fn element(
    draft: &mut Draft,
    f: FrameShape,
    row: Array,
    index: &Exp,
    slot: u32,
) -> Result<(), AllocError>
    requires frame { f.words ≤ MOST_WORDS }
    requires row_fits { RowBound f row }
    requires fits { ExpBound f index.now }
    requires room { slot + exp_words (Element row index.now) ≤ LAST_PLACE }
    requires placed { length draft.old.laid.code + exp_words (Element row index.now) ≤ MOST_WORDS }
    requires seals { length draft.old.laid.sites + calls index.now ≤ draft.old.seals }
    ensures { OnOk result (EmitsExp f slot (Element row index.now) draft.old draft.new) }
{
    expr(draft, f, index, slot)?;
    draft.at_element(
        f.pairs + row.first,
        row.length,
        Instr::Load(Reg::G1, Reg::Dat),
    )?;
    draft.put(Instr::Move(Reg::G0, Operand::R(Reg::G1)))
}

// A call: its value comes into g0.
#[cycle(expr)]
#[tactic(auto, using(crate::proofs::Written::items))]
fn call(
    draft: &mut Draft,
    f: FrameShape,
    h: Handle,
    args: &[ArgExp],
    slot: u32,
) -> Result<(), AllocError>
    requires frame { f.words ≤ MOST_WORDS }
    requires handle_fits { HandleBound f h }
    requires fits { ArgsBound f (args_of args.now) }
    requires few { arg_registers (args_of args.now) ≤ MOST_REGISTERS }
    requires room { slot + call_words h (args_of args.now) ≤ LAST_PLACE }
    requires placed { length draft.old.laid.code + call_words h (args_of args.now) ≤ MOST_WORDS }
    requires seals { length draft.old.laid.sites + args_calls (args_of args.now) + 1 ≤ draft.old.seals }
    ensures { OnOk result (Emits
        (args_code f slot 0 (args_of args.now) ++ call_items f slot h (args_of args.now))
        (call_words h (args_of args.now)) (args_calls (args_of args.now) + 1) draft.old draft.new) }
{
    values(draft, f, args, slot, 0)?;
    call_with(draft, f, h, args, slot)
}

// The values of arguments, each in its slot; the first of them is handed over in this register.
#[cycle(expr)]
#[tactic(auto, using(crate::proofs::Written::items))]
fn values(
    draft: &mut Draft,
    f: FrameShape,
    args: &[ArgExp],
    slot: u32,
    from: u32,
) -> Result<(), AllocError>
    requires frame { f.words ≤ MOST_WORDS }
    requires fits { ArgsBound f (args_of args.now) }
    requires few { from + arg_registers (args_of args.now) ≤ MOST_REGISTERS }
    requires room { slot + MOST_REGISTERS + values_words (args_of args.now) ≤ LAST_PLACE }
    requires placed { length draft.old.laid.code + values_words (args_of args.now) ≤ MOST_WORDS }
    requires seals { length draft.old.laid.sites + args_calls (args_of args.now) ≤ draft.old.seals }
    ensures { OnOk result (Emits (args_code f slot from (args_of args.now))
        (values_words (args_of args.now)) (args_calls (args_of args.now)) draft.old draft.new) }
{
    match args.split_first() {
        None => Ok(()),
        Some((ArgExp::Value(e), rest)) => {
            expr(draft, f, e, slot + from)?;
            draft.at_slot(f, slot + from, Instr::Store(Reg::Stk, Reg::G0))?;
            values(draft, f, rest, slot, from + 1)
        }
        Some((ArgExp::Pass(_), rest)) => values(draft, f, rest, slot, from + 2),
    }
}

/// The register in which an argument is handed over.
pub(crate) fn argument(index: u32) -> Reg
    ensures { result ≡ argument index }
{
    match index {
        0 => Reg::A0,
        1 => Reg::A1,
        2 => Reg::A2,
        _ => Reg::A3,
    }
}

/// How many registers arguments take.
pub(crate) fn arg_registers(args: &[ArgExp]) -> u32
    requires { arg_registers (args_of args.now) ≤ MOST_REGISTERS }
    ensures { result ≡ arg_registers (args_of args.now) }
{
    match args.split_first() {
        None => 0,
        Some((ArgExp::Value(_), rest)) => arg_registers(rest) + 1,
        Some((ArgExp::Pass(_), rest)) => arg_registers(rest) + 2,
    }
}

// Arguments come into their registers.
#[tactic(auto, using(crate::proofs::Written::items))]
fn loads(
    draft: &mut Draft,
    f: FrameShape,
    args: &[ArgExp],
    slot: u32,
    from: u32,
) -> Result<(), AllocError>
    requires frame { f.words ≤ MOST_WORDS }
    requires fits { ArgsBound f (args_of args.now) }
    requires few { from + arg_registers (args_of args.now) ≤ MOST_REGISTERS }
    requires room { slot + MOST_REGISTERS ≤ LAST_PLACE }
    ensures { OnOk result (Emits (load_args f slot from (args_of args.now))
        (loads_words (args_of args.now)) 0 draft.old draft.new) }
{
    match args.split_first() {
        None => Ok(()),
        Some((ArgExp::Value(_), rest)) => {
            draft.at_slot(f, slot + from, Instr::Load(argument(from), Reg::Stk))?;
            loads(draft, f, rest, slot, from + 1)
        }
        Some((ArgExp::Pass(h), rest)) => {
            draft.load_pair(f, *h, argument(from), argument(from + 1))?;
            loads(draft, f, rest, slot, from + 2)
        }
    }
}

// The registers of arguments that a call doesn't hand over become 0.
#[tactic(auto, using(crate::proofs::Written::items))]
fn unused(draft: &mut Draft, count: u32) -> Result<(), AllocError>
    requires { count ≤ MOST_REGISTERS }
    ensures { OnOk result
        (Emits (zeros (drop count arguments)) (MOST_REGISTERS - count) 0 draft.old draft.new) }
{
    let all = [Reg::A0, Reg::A1, Reg::A2, Reg::A3];
    draft.zeros(&all[count as usize..])
}

// A call, once the values of its arguments stand in their slots.
#[tactic(auto, using(crate::proofs::Written::items))]
fn call_with(
    draft: &mut Draft,
    f: FrameShape,
    h: Handle,
    args: &[ArgExp],
    slot: u32,
) -> Result<(), AllocError>
    requires frame { f.words ≤ MOST_WORDS }
    requires handle_fits { HandleBound f h }
    requires fits { ArgsBound f (args_of args.now) }
    requires few { arg_registers (args_of args.now) ≤ MOST_REGISTERS }
    requires room { slot + MOST_REGISTERS ≤ LAST_PLACE }
    requires placed { length draft.old.laid.code + after_values h (args_of args.now) ≤ MOST_WORDS }
    requires seals { length draft.old.laid.sites < draft.old.seals }
    ensures { OnOk result (Emits (call_items f slot h (args_of args.now))
        (after_values h (args_of args.now)) 1 draft.old draft.new) }
{
    loads(draft, f, args, slot, 0)?;
    unused(draft, arg_registers(args))?;
    draft.load_pair(f, h, Reg::C1, Reg::C2)?;
    draft.zeros(&[Reg::G0, Reg::G1, Reg::G2])?;
    draft.site()?;
    draft.put(Instr::Plus(Reg::G0, Reg::A0, Operand::Imm(0)))
}
