//! Procedures.
ghost use Rattle.std.specs.Prelude.{◌≡◌, ◌≤◌, ◌+◌, ◌*◌, true, [], ◌∷◌, OnOk, length};
ghost use Rattle.cap_words.specs.declared.TheConstants.{LAST_PLACE};
ghost use Rattle.component_file.specs.declared.TheConstants.{MOST_WORDS};
ghost use Rattle.proc_program.specs.StepView.{block_of};
ghost use Rattle.proc_program.specs.Calls.{procedure_calls};
ghost use Rattle.proc_program.specs.Limits.{register_count, registers_of};
ghost use Rattle.proc_templates.specs.Templates.{block_words, check_param, check_params, check_words};
ghost use Rattle.proc_templates.specs.Templates.{checks_words, pushed, push, proc_code, proc_words};
ghost use Rattle.proc_templates.specs.Bounds.{BlockBound};
ghost use Rattle.proc_compiler.specs.Drafts.{Emits};

use crate::draft::Draft;
use crate::exprs::argument;
use crate::stmts::block;
use lcm_isa::{Instr, Operand, Reg};
use proc_language::MOST_REGISTERS;
use proc_program::Procedure;
use proc_templates::FrameShape;
use std::alloc::AllocError;

// How many registers a parameter takes.
fn register_count(callback: bool) -> u32
    ensures { result ≡ register_count callback }
{
    if callback { 2 } else { 1 }
}

/// How many registers parameters take.
pub(crate) fn registers_of(callbacks: &[bool]) -> u32
    requires { registers_of callbacks.now ≤ MOST_REGISTERS }
    ensures { result ≡ registers_of callbacks.now }
{
    callbacks
        .iter()
        .map(|callback| register_count(*callback))
        .sum()
}

// The check of a parameter that is handed over in this register.
fn check(draft: &mut Draft, callback: bool, from: u32) -> Result<(), AllocError>
    requires placed { length draft.old.laid.code ≤ MOST_WORDS }
    requires few { from + register_count callback ≤ MOST_REGISTERS }
    ensures { OnOk result
        (Emits (check_param from callback ∷ []) (check_words callback) 0 draft.old draft.new) }
{
    if callback {
        return draft.check_pair(argument(from), argument(from + 1));
    }
    let r = argument(from);
    draft.put(Instr::Plus(r, r, Operand::Imm(0)))
}

// The checks of parameters, the first of which is handed over in this register.
#[tactic(auto, using(crate::proofs::Written::items))]
fn checks(draft: &mut Draft, callbacks: &[bool], from: u32) -> Result<(), AllocError>
    requires few { from + registers_of callbacks.now ≤ MOST_REGISTERS }
    requires placed { length draft.old.laid.code + checks_words callbacks.now ≤ MOST_WORDS }
    ensures { OnOk result
        (Emits (check_params from callbacks.now) (checks_words callbacks.now) 0 draft.old draft.new) }
{
    match callbacks.split_first() {
        None => Ok(()),
        Some((callback, rest)) => {
            check(draft, *callback, from)?;
            checks(draft, rest, from + register_count(*callback))
        }
    }
}

// A frame of so many words is pushed.
#[tactic(auto, using(crate::proofs::Written::pushed))]
fn prologue(draft: &mut Draft, params: u32, words: u32) -> Result<(), AllocError>
    requires few { params ≤ MOST_REGISTERS }
    requires room { 2 + params ≤ words }
    ensures { OnOk result (Emits (push (pushed params words)) (2 * words) 0 draft.old draft.new) }
{
    let all = [Reg::A0, Reg::A1, Reg::A2, Reg::A3];
    draft.push(&[Reg::Rcode, Reg::Rdata])?;
    draft.push(&all[..params as usize])?;
    draft.push_zeros(words - (2 + params))
}

/// A procedure with its frame.
#[tactic(auto, using(crate::proofs::Written::items))]
pub(crate) fn proc_at(draft: &mut Draft, f: FrameShape, p: &Procedure) -> Result<(), AllocError>
    requires frame { f.words ≤ MOST_WORDS }
    requires few { registers_of p.now.callbacks ≤ MOST_REGISTERS }
    requires slots { 2 + registers_of p.now.callbacks ≤ f.words }
    requires fits { BlockBound f (block_of p.now.body) }
    requires room { f.temps + block_words (block_of p.now.body) ≤ LAST_PLACE }
    requires placed { length draft.old.laid.code
        + proc_words f.words p.now.callbacks (block_of p.now.body) ≤ MOST_WORDS }
    requires seals { length draft.old.laid.sites + procedure_calls p.now ≤ draft.old.seals }
    ensures { OnOk result (Emits (proc_code f p.now.callbacks (block_of p.now.body))
        (proc_words f.words p.now.callbacks (block_of p.now.body)) (procedure_calls p.now)
        draft.old draft.new) }
{
    let callbacks = p.callbacks.as_slice();
    draft.entry()?;
    checks(draft, callbacks, 0)?;
    prologue(draft, registers_of(callbacks), f.words)?;
    block(draft, f, p.body.as_slice())?;
    draft.put(Instr::Move(Reg::A0, Operand::Imm(0)))?;
    draft.label()?;
    draft.epilogue(f.words)
}
