//! Statements.
ghost use Rattle.std.specs.Prelude.{◌≤◌, ◌+◌, OnOk, length};
ghost use Rattle.cap_words.specs.declared.TheConstants.{LAST_PLACE};
ghost use Rattle.component_file.specs.declared.TheConstants.{MOST_WORDS};
ghost use Rattle.proc_program.specs.Program.{SetAt, If, While};
ghost use Rattle.proc_program.specs.StepView.{block_of};
ghost use Rattle.proc_program.specs.Calls.{step_calls, block_calls};
ghost use Rattle.proc_templates.specs.Templates.{step_words, block_words, store_var};
ghost use Rattle.proc_templates.specs.Bounds.{PlaceBound, RowBound, ExpBound, StepBound, BlockBound};
ghost use Rattle.proc_compiler.specs.Drafts.{Emits, EmitsStep, EmitsBlock};

use crate::counts::ACCESS_WORDS;
use crate::draft::Draft;
use crate::exprs::expr;
use lcm_isa::{Instr, Operand, Reg};
use proc_program::{Array, Exp, Location, Statement, StatementKind};
use proc_templates::FrameShape;
use std::alloc::AllocError;

// g0 goes into a variable.
#[tactic(auto, using(crate::proofs::Written::items))]
fn store_var(draft: &mut Draft, f: FrameShape, x: Location) -> Result<(), AllocError>
    requires frame { f.words ≤ MOST_WORDS }
    requires fits { PlaceBound f x }
    ensures { OnOk result (Emits (store_var f x) ACCESS_WORDS 0 draft.old draft.new) }
{
    match x {
        Location::Local(i) => draft.at_slot(f, i + 2, Instr::Store(Reg::Stk, Reg::G0)),
        Location::Global(o) => draft.at_glob(f.pairs + o, Instr::Store(Reg::Dat, Reg::G0)),
    }
}

// A statement.
#[cycle(statement)]
#[tactic(auto, using(crate::proofs::Written::items))]
fn statement(draft: &mut Draft, f: FrameShape, s: &Statement) -> Result<(), AllocError>
    requires frame { f.words ≤ MOST_WORDS }
    requires fits { StepBound f s.now }
    requires room { f.temps + step_words s.now ≤ LAST_PLACE }
    requires placed { length draft.old.laid.code + step_words s.now ≤ MOST_WORDS }
    requires seals { length draft.old.laid.sites + step_calls s.now ≤ draft.old.seals }
    ensures { OnOk result (EmitsStep f s.now draft.old draft.new) }
{
    match &s.kind {
        StatementKind::Set(x, e) => {
            expr(draft, f, e, f.temps)?;
            store_var(draft, f, *x)
        }
        StatementKind::SetAt(row, index, e) => sets_at(draft, f, *row, index, e),
        StatementKind::Do(e) => expr(draft, f, e, f.temps),
        StatementKind::If(c, body, other) => branch(draft, f, c, body.as_slice(), other.as_slice()),
        StatementKind::While(c, body) => repeat(draft, f, c, body.as_slice()),
        StatementKind::Return(e) => {
            expr(draft, f, e, f.temps)?;
            draft.put(Instr::Move(Reg::A0, Operand::R(Reg::G0)))?;
            draft.finish()
        }
        StatementKind::Halt(e) => {
            expr(draft, f, e, f.temps)?;
            draft.puts(&[Instr::Move(Reg::A0, Operand::R(Reg::G0)), Instr::Halt])
        }
    }
}

// An element of an array is set.
#[tactic(auto, using(crate::proofs::Written::items))]
fn sets_at(
    draft: &mut Draft,
    f: FrameShape,
    row: Array,
    index: &Exp,
    e: &Exp,
) -> Result<(), AllocError>
    requires frame { f.words ≤ MOST_WORDS }
    requires row_fits { RowBound f row }
    requires index_fits { ExpBound f index.now }
    requires value_fits { ExpBound f e.now }
    requires room { f.temps + step_words (SetAt row index.now e.now) ≤ LAST_PLACE }
    requires placed { length draft.old.laid.code + step_words (SetAt row index.now e.now) ≤ MOST_WORDS }
    requires seals { length draft.old.laid.sites + step_calls (SetAt row index.now e.now) ≤ draft.old.seals }
    ensures { OnOk result (EmitsStep f (SetAt row index.now e.now) draft.old draft.new) }
{
    expr(draft, f, index, f.temps)?;
    draft.at_slot(f, f.temps, Instr::Store(Reg::Stk, Reg::G0))?;
    expr(draft, f, e, f.temps + 1)?;
    draft.put(Instr::Move(Reg::A0, Operand::R(Reg::G0)))?;
    draft.at_slot(f, f.temps, Instr::Load(Reg::G0, Reg::Stk))?;
    draft.at_element(
        f.pairs + row.first,
        row.length,
        Instr::Store(Reg::Dat, Reg::A0),
    )
}

// One block where the condition holds, and another where it doesn't. How far a jump goes forward is told
// once what it goes over is written.
#[cycle(statement)]
fn branch(
    draft: &mut Draft,
    f: FrameShape,
    c: &Exp,
    body: &[Statement],
    other: &[Statement],
) -> Result<(), AllocError>
    requires frame { f.words ≤ MOST_WORDS }
    requires fits { StepBound f (If c.now (block_of body.now) (block_of other.now)) }
    requires room { f.temps + step_words (If c.now (block_of body.now) (block_of other.now)) ≤ LAST_PLACE }
    requires placed { length draft.old.laid.code
        + step_words (If c.now (block_of body.now) (block_of other.now)) ≤ MOST_WORDS }
    requires seals { length draft.old.laid.sites
        + step_calls (If c.now (block_of body.now) (block_of other.now)) ≤ draft.old.seals }
    ensures { OnOk result
        (EmitsStep f (If c.now (block_of body.now) (block_of other.now)) draft.old draft.new) }
{
    expr(draft, f, c, f.temps)?;
    draft.jump_if(6, Reg::G0)?;
    let over_body = draft.at();
    draft.jump(0)?;
    draft.label()?;
    block(draft, f, body)?;
    draft.lead(over_body, 3);
    let over_other = draft.at();
    draft.jump(0)?;
    draft.label()?;
    block(draft, f, other)?;
    draft.lead(over_other, 0);
    draft.label()
}

// A block as long as the condition holds.
#[cycle(statement)]
fn repeat(draft: &mut Draft, f: FrameShape, c: &Exp, body: &[Statement]) -> Result<(), AllocError>
    requires frame { f.words ≤ MOST_WORDS }
    requires fits { StepBound f (While c.now (block_of body.now)) }
    requires room { f.temps + step_words (While c.now (block_of body.now)) ≤ LAST_PLACE }
    requires placed { length draft.old.laid.code + step_words (While c.now (block_of body.now)) ≤ MOST_WORDS }
    requires seals { length draft.old.laid.sites + step_calls (While c.now (block_of body.now))
        ≤ draft.old.seals }
    ensures { OnOk result (EmitsStep f (While c.now (block_of body.now)) draft.old draft.new) }
{
    let start = draft.at();
    draft.label()?;
    expr(draft, f, c, f.temps)?;
    draft.jump_if(6, Reg::G0)?;
    let over_body = draft.at();
    draft.jump(0)?;
    draft.label()?;
    block(draft, f, body)?;
    draft.jump_back(draft.at() - start)?;
    draft.lead(over_body, 0);
    draft.label()
}

/// Statements, one after the other.
#[cycle(statement)]
#[tactic(auto, using(crate::proofs::Written::items))]
pub(crate) fn block(draft: &mut Draft, f: FrameShape, steps: &[Statement]) -> Result<(), AllocError>
    requires frame { f.words ≤ MOST_WORDS }
    requires fits { BlockBound f (block_of steps.now) }
    requires room { f.temps + block_words (block_of steps.now) ≤ LAST_PLACE }
    requires placed { length draft.old.laid.code + block_words (block_of steps.now) ≤ MOST_WORDS }
    requires seals { length draft.old.laid.sites + block_calls (block_of steps.now) ≤ draft.old.seals }
    ensures { OnOk result (EmitsBlock f (block_of steps.now) draft.old draft.new) }
{
    for s in steps {
        statement(draft, f, s)?;
    }
    Ok(())
}
