//! From the tree of a module to the program that it runs as.
ghost use Rattle.std.specs.Prelude.{◌≡◌, ℕ, ◌+◌, ◌<◌, ◌≤◌, ◌++◌, IfOk, OnOk, OnErr, length, map};
ghost use Rattle.std.specs.Prelude.{is_some, ◌^◌, MatchOption, [], unwrap_or};
ghost use Rattle.proc_names.specs.Need.{need};
ghost use Rattle.proc_language.specs.Limits.{Each, ProcFits, GlobalFits, IsModule, params_registers};
ghost use Rattle.proc_language.specs.StmtView.{block_of as stmts_of};
ghost use Rattle.proc_language.specs.View.{args_of as tree_args};
ghost use Rattle.proc_names.specs.Names.{variable_named, callee_named, passed_named};
ghost use Rattle.proc_names.specs.Calls.{calls, args_calls, stmt_calls, block_calls, proc_calls};
ghost use Rattle.proc_program.specs.Limits.{VariableWithin, CalleeWithin};
ghost use Rattle.proc_program.specs.Lower.{words, words_in, first_word_of, row_at, row_of, param_place};
ghost use Rattle.proc_program.specs.Lower.{variable_of};
ghost use Rattle.proc_program.specs.Lower.{handle_by, handle_of, passed_handle, exp_of, args_of, call_of};
ghost use Rattle.proc_program.specs.Lower.{step_of};
ghost use Rattle.proc_program.specs.Program.{SetAt, If, While};
ghost use Rattle.proc_program.specs.StepView.{block_of};
ghost use Rattle.proc_program.specs.Lower.{steps_of, procedure_of, procedures_of, globals_of, import_of};
ghost use Rattle.proc_program.specs.Lower.{part_of};

use crate::program::{
    ArgExp, Array, CallExp, Exp, ExpKind, Handle, Header, Location, Procedure, Program,
    ProgramImport, Statement, StatementKind,
};
use cap_words::Items;
use proc_language::{
    Arg, Call, Expr, ExprKind, Global, MOST_ITEMS, MOST_REGISTERS, Module, ModuleFields, Name,
    Param, Proc, Stmt, StmtKind,
};
use proc_names::{
    Callee, Variable, callee_named, params_registers, passed_named, variable_named, words_needed,
};
use std::alloc::{AllocError, Global as Heap};

// ---- names

fn words(g: &Global) -> u32
    ensures { result ≡ words g.now }
{
    g.length.unwrap_or(1)
}

fn words_in(gs: &[Global]) -> u32
    requires { words_in gs.now < 2 ^ 32 }
    ensures { result ≡ words_in gs.now }
{
    gs.iter().map(|g| words(g)).sum()
}

// The first word of the global of an index.
#[tactic(auto, using(crate::proofs::Limits::words_before, crate::proofs::Limits::words_in_le))]
fn word_at(gs: &[Global], k: usize) -> u32
    requires within { k < length gs.now }
    requires few { length gs.now ≤ MOST_ITEMS }
    requires fits { Each GlobalFits gs.now }
    ensures { result ≡ first_word_of gs.now k }
{
    words_in(&gs[..k])
}

fn row_at(gs: &[Global], k: usize) -> Array
    requires within { k < length gs.now }
    requires few { length gs.now ≤ MOST_ITEMS }
    requires fits { Each GlobalFits gs.now }
    ensures { result ≡ row_at gs.now k }
{
    Array {
        first: word_at(gs, k),
        length: words(&gs[k]),
    }
}

#[tactic(auto, using(crate::proofs::Limits::registers_before))]
fn param_place(params: &[Param], i: usize) -> u32
    requires within { i < length params.now }
    requires fits { params_registers params.now ≤ MOST_REGISTERS }
    ensures { result ≡ param_place params.now i }
{
    params_registers(&params[..i])
}

// What a variable's name leads to, which is there.
#[tactic(auto, using(crate::proofs::Limits::variable_within))]
fn variable_in(m: &ModuleFields, p: &Proc, x: &Name) -> Variable
    ensures is { result ≡ variable_named m.now p.now x.now }
    ensures within { VariableWithin m.now p.now result }
{
    variable_named(m, p, x)
}

fn variable_of(m: &ModuleFields, p: &Proc, x: &Name) -> Location
    requires limits { IsModule m.now }
    requires fits { ProcFits p.now }
    ensures { result ≡ variable_of m.now p.now x.now }
{
    let params = p.params.as_slice();
    match variable_in(m, p, x) {
        Variable::Param(i) => Location::Local(param_place(params, i)),
        Variable::Local(k) => Location::Local(params_registers(params) + k as u32),
        Variable::Global(k) | Variable::Array(k) => {
            Location::Global(word_at(m.globals.as_slice(), k))
        }
        Variable::Other | Variable::Missing => Location::Global(0),
    }
}

fn row_of(m: &ModuleFields, p: &Proc, x: &Name) -> Array
    requires { IsModule m.now }
    ensures { result ≡ row_of m.now p.now x.now }
{
    match variable_in(m, p, x) {
        Variable::Array(k) => row_at(m.globals.as_slice(), k),
        _ => Array {
            first: 0,
            length: 0,
        },
    }
}

fn handle_by(m: &ModuleFields, p: &Proc, callee: Callee) -> Handle
    requires limits { IsModule m.now }
    requires fits { ProcFits p.now }
    requires within { CalleeWithin m.now p.now callee }
    ensures { result ≡ handle_by p.now.params callee }
{
    match callee {
        Callee::Callback(i) => Handle::Given(param_place(p.params.as_slice(), i)),
        Callee::Import(k) => Handle::Imported(k as u32),
        Callee::Proc(j) => Handle::Own(j as u32),
        Callee::Other | Callee::Missing => Handle::Own(0),
    }
}

#[tactic(auto, using(crate::proofs::Limits::callee_within))]
fn handle_of(m: &ModuleFields, p: &Proc, f: &Name) -> Handle
    requires limits { IsModule m.now }
    requires fits { ProcFits p.now }
    ensures { result ≡ handle_of m.now p.now f.now }
{
    handle_by(m, p, callee_named(m, p, f))
}

#[tactic(auto, using(crate::proofs::Limits::passed_within))]
fn passed_of(m: &ModuleFields, p: &Proc, f: &Name) -> Handle
    requires limits { IsModule m.now }
    requires fits { ProcFits p.now }
    ensures { result ≡ passed_handle m.now p.now f.now }
{
    handle_by(m, p, passed_named(m, p, f))
}

// ---- expressions and statements

// The number of the next call, which 32 bits may not tell.
fn next_site(next: &mut u32) -> Result<u32, AllocError>
    ensures same { IfOk result (λ n. n ≡ next.old) }
    ensures counted { OnOk result (next.new ≡ next.old + 1) }
    ensures fails { OnErr result (2 ^ 32 ≤ next.old + 1) }
{
    let site = *next;
    *next = site.checked_add(1).ok_or(AllocError)?;
    Ok(site)
}

// An expression, where its calls have the numbers from `next` on.
#[cycle(exp_of)]
fn exp_of(
    alloc: Heap,
    m: &ModuleFields,
    p: &Proc,
    e: &Expr,
    next: &mut u32,
) -> Result<Exp, AllocError>
    requires limits { IsModule m.now }
    requires fits { ProcFits p.now }
    ensures same { IfOk result (λ x. x ≡ exp_of m.now p.now next.old e.now) }
    ensures counted { OnOk result (next.new ≡ next.old + calls e.now) }
{
    let kind = match &e.kind {
        ExprKind::Number(v) => ExpKind::Number(*v),
        ExprKind::Var(x) => ExpKind::Load(variable_of(m, p, x)),
        ExprKind::Element(x, index) => {
            ExpKind::Element(row_of(m, p, x), boxed_of(alloc, m, p, index, next)?)
        }
        ExprKind::Call(call) => return call_of(alloc, m, p, call, next),
        ExprKind::Op(op, left, right) => {
            let left = boxed_of(alloc, m, p, left, next)?;
            ExpKind::Binary(*op, left, boxed_of(alloc, m, p, right, next)?)
        }
    };
    Ok(Exp { kind })
}

#[cycle(exp_of)]
fn boxed_of(
    alloc: Heap,
    m: &ModuleFields,
    p: &Proc,
    e: &Expr,
    next: &mut u32,
) -> Result<Box<Exp>, AllocError>
    requires limits { IsModule m.now }
    requires fits { ProcFits p.now }
    ensures same { IfOk result (λ x. x.value ≡ exp_of m.now p.now next.old e.now) }
    ensures counted { OnOk result (next.new ≡ next.old + calls e.now) }
{
    Ok(Box::new(alloc, exp_of(alloc, m, p, e, next)?)?)
}

#[cycle(exp_of)]
fn call_of(
    alloc: Heap,
    m: &ModuleFields,
    p: &Proc,
    call: &Call,
    next: &mut u32,
) -> Result<Exp, AllocError>
    requires limits { IsModule m.now }
    requires fits { ProcFits p.now }
    ensures same { IfOk result (λ x. x
        ≡ call_of m.now p.now next.old call.now.name (tree_args call.now.args)) }
    ensures counted { OnOk result (next.new ≡ next.old + (args_calls (tree_args call.now.args) + 1)) }
{
    let mut args = Vec::new(alloc);
    push_args(alloc, m, p, call.args.as_slice(), next, &mut args)?;
    let site = next_site(next)?;
    let kind = ExpKind::Call(CallExp {
        site,
        handle: handle_of(m, p, &call.name),
        args: Items::of(args),
    });
    Ok(Exp { kind })
}

// After what is lowered already, the arguments that are left.
#[cycle(exp_of)]
#[tactic(auto, using(crate::proofs::Limits::one_more))]
fn push_args(
    alloc: Heap,
    m: &ModuleFields,
    p: &Proc,
    xs: &[Arg],
    next: &mut u32,
    done: &mut Vec<ArgExp>,
) -> Result<(), AllocError>
    requires limits { IsModule m.now }
    requires fits { ProcFits p.now }
    ensures same { OnOk result (done.new.items
        ≡ done.old.items ++ args_of m.now p.now next.old (tree_args xs.now)) }
    ensures counted { OnOk result (next.new ≡ next.old + args_calls (tree_args xs.now)) }
{
    let Some((first, rest)) = xs.split_first() else {
        return Ok(());
    };
    let lowered = match first {
        Arg::Value(e) => ArgExp::Value(exp_of(alloc, m, p, e, next)?),
        Arg::Proc(f) => ArgExp::Pass(passed_of(m, p, f)),
    };
    done.push(lowered)?;
    push_args(alloc, m, p, rest, next, done)
}

// An element of an array is set.
fn set_at_of(
    alloc: Heap,
    m: &ModuleFields,
    p: &Proc,
    x: &Name,
    index: &Expr,
    e: &Expr,
    next: &mut u32,
) -> Result<Statement, AllocError>
    requires limits { IsModule m.now }
    requires fits { ProcFits p.now }
    ensures same { IfOk result (λ s. s ≡ SetAt (row_of m.now p.now x.now)
        (exp_of m.now p.now next.old index.now)
        (exp_of m.now p.now (next.old + calls index.now) e.now)) }
    ensures counted { OnOk result (next.new ≡ next.old + (calls index.now + calls e.now)) }
{
    let row = row_of(m, p, x);
    let index = exp_of(alloc, m, p, index, next)?;
    let kind = StatementKind::SetAt(row, index, exp_of(alloc, m, p, e, next)?);
    Ok(Statement { kind })
}

// The statements of an `else`, if there is one.
fn otherwise(other: &Option<Items<Stmt>>) -> &[Stmt]
    ensures { result.now ≡ unwrap_or other.now [] }
{
    match other {
        None => &[],
        Some(stmts) => stmts.as_slice(),
    }
}

// A statement, where its calls have the numbers from `next` on.
#[cycle(step_of)]
fn step_of(
    alloc: Heap,
    m: &ModuleFields,
    p: &Proc,
    s: &Stmt,
    next: &mut u32,
) -> Result<Statement, AllocError>
    requires limits { IsModule m.now }
    requires fits { ProcFits p.now }
    ensures same { IfOk result (λ x. x ≡ step_of m.now p.now next.old s.now) }
    ensures counted { OnOk result (next.new ≡ next.old + stmt_calls s.now) }
{
    let kind = match &s.kind {
        StmtKind::Set(x, e) => {
            StatementKind::Set(variable_of(m, p, x), exp_of(alloc, m, p, e, next)?)
        }
        StmtKind::SetAt(x, index, e) => return set_at_of(alloc, m, p, x, index, e, next),
        StmtKind::Call(call) => StatementKind::Do(call_of(alloc, m, p, call, next)?),
        StmtKind::If(c, body, other) => {
            return branch_of(alloc, m, p, c, body.as_slice(), otherwise(other), next);
        }
        StmtKind::While(c, body) => return repeat_of(alloc, m, p, c, body.as_slice(), next),
        StmtKind::Return(e) => StatementKind::Return(exp_of(alloc, m, p, e, next)?),
        StmtKind::Halt(e) => StatementKind::Halt(exp_of(alloc, m, p, e, next)?),
    };
    Ok(Statement { kind })
}

#[cycle(step_of)]
fn branch_of(
    alloc: Heap,
    m: &ModuleFields,
    p: &Proc,
    c: &Expr,
    body: &[Stmt],
    other: &[Stmt],
    next: &mut u32,
) -> Result<Statement, AllocError>
    requires limits { IsModule m.now }
    requires fits { ProcFits p.now }
    ensures same { IfOk result (λ s. s ≡ If (exp_of m.now p.now next.old c.now)
        (block_of (steps_of m.now p.now (next.old + calls c.now) (stmts_of body.now)))
        (block_of (steps_of m.now p.now (next.old + calls c.now + block_calls (stmts_of body.now))
        (stmts_of other.now)))) }
    ensures counted { OnOk result (next.new
        ≡ next.old + (calls c.now + (block_calls (stmts_of body.now) + block_calls (stmts_of other.now)))) }
{
    let c = exp_of(alloc, m, p, c, next)?;
    let body = steps_of(alloc, m, p, body, next)?;
    let kind = StatementKind::If(c, body, steps_of(alloc, m, p, other, next)?);
    Ok(Statement { kind })
}

#[cycle(step_of)]
fn repeat_of(
    alloc: Heap,
    m: &ModuleFields,
    p: &Proc,
    c: &Expr,
    body: &[Stmt],
    next: &mut u32,
) -> Result<Statement, AllocError>
    requires limits { IsModule m.now }
    requires fits { ProcFits p.now }
    ensures same { IfOk result (λ s. s ≡ While (exp_of m.now p.now next.old c.now)
        (block_of (steps_of m.now p.now (next.old + calls c.now) (stmts_of body.now)))) }
    ensures counted { OnOk result (next.new
        ≡ next.old + (calls c.now + block_calls (stmts_of body.now))) }
{
    let c = exp_of(alloc, m, p, c, next)?;
    let kind = StatementKind::While(c, steps_of(alloc, m, p, body, next)?);
    Ok(Statement { kind })
}

#[cycle(step_of)]
fn steps_of(
    alloc: Heap,
    m: &ModuleFields,
    p: &Proc,
    stmts: &[Stmt],
    next: &mut u32,
) -> Result<Items<Statement>, AllocError>
    requires limits { IsModule m.now }
    requires fits { ProcFits p.now }
    ensures same { IfOk result (λ v. v ≡ steps_of m.now p.now next.old (stmts_of stmts.now)) }
    ensures counted { OnOk result (next.new ≡ next.old + block_calls (stmts_of stmts.now)) }
{
    let mut lowered = Vec::new(alloc);
    for s in stmts {
        lowered.push(step_of(alloc, m, p, s, next)?)?;
    }
    Ok(Items::of(lowered))
}

// ---- procedures and modules

fn text_of(alloc: Heap, x: &Name) -> Result<Items<u8>, AllocError>
    ensures { IfOk result (λ t. t ≡ x.now.text) }
{
    Ok(Items::of(Vec::from_slice(alloc, x.text.as_slice())?))
}

fn callbacks_of(alloc: Heap, params: &[Param]) -> Result<Vec<bool>, AllocError>
    ensures { IfOk result (λ v. v.items ≡ map (λ q. is_some q.arity) params.now) }
{
    let mut callbacks = Vec::new(alloc);
    for q in params {
        callbacks.push(q.arity.is_some())?;
    }
    Ok(callbacks)
}

// The words that a procedure needs of the stack, where they are less than the largest number of 32 bits.
fn need_of(p: &Proc) -> Option<u32>
    requires { ProcFits p.now }
    ensures { MatchOption result (2 ^ 32 ≤ need p.now + 1) (λ n. n ≡ need p.now) }
{
    let need = words_needed(p);
    if need == u32::MAX { None } else { Some(need) }
}

fn procedure_of(
    alloc: Heap,
    m: &ModuleFields,
    p: &Proc,
    next: &mut u32,
) -> Result<Procedure, AllocError>
    requires limits { IsModule m.now }
    requires fits { ProcFits p.now }
    ensures same { IfOk result (λ q. q ≡ procedure_of m.now next.old p.now) }
    ensures counted { OnOk result (next.new ≡ next.old + proc_calls p.now) }
{
    let need = need_of(p).ok_or(AllocError)?;
    let name = text_of(alloc, &p.name)?;
    let callbacks = callbacks_of(alloc, p.params.as_slice())?;
    let body = steps_of(alloc, m, p, p.body.as_slice(), next)?;
    Ok(Procedure {
        name,
        shared: p.shared,
        callbacks: Items::of(callbacks),
        locals: p.locals.as_slice().len() as u32,
        need,
        body,
    })
}

fn procedures_of(
    alloc: Heap,
    m: &ModuleFields,
    procs: &[Proc],
) -> Result<Vec<Procedure>, AllocError>
    requires limits { IsModule m.now }
    requires fits { Each ProcFits procs.now }
    ensures { IfOk result (λ v. v.items ≡ procedures_of m.now 0 procs.now) }
{
    let mut lowered = Vec::new(alloc);
    let mut next: u32 = 0;
    for p in procs {
        lowered.push(procedure_of(alloc, m, p, &mut next)?)?;
    }
    Ok(lowered)
}

fn globals_of(alloc: Heap, gs: &[Global]) -> Result<Vec<i64>, AllocError>
    ensures { IfOk result (λ v. v.items ≡ globals_of gs.now) }
{
    let mut globals = Vec::new(alloc);
    for g in gs {
        let end = globals.len() + words(g) as usize;
        globals.resize(end, g.initial.unwrap_or(0))?;
    }
    Ok(globals)
}

fn imports_of(
    alloc: Heap,
    imports: &[proc_language::Import],
) -> Result<Vec<ProgramImport>, AllocError>
    ensures { IfOk result (λ v. v.items ≡ map import_of imports.now) }
{
    let mut lowered = Vec::new(alloc);
    for i in imports {
        let part = text_of(alloc, &i.part)?;
        lowered.push(ProgramImport {
            part,
            name: text_of(alloc, &i.name)?,
        })?;
    }
    Ok(lowered)
}

/// The program that a module runs as, by the rules of docs/LANGUAGE.md on names. Of a module whose
/// names aren't resolved it is one of no use.
///
/// # Errors
///
/// `AllocError` where memory was refused, or would have to be: a module that has 2^32 calls, or a
/// procedure that needs 2^32 - 1 words of the stack, has a tree of about as many nodes.
pub fn lowered(alloc: Heap, m: &Module) -> Result<Program, AllocError>
    ensures { IfOk result (λ part. part ≡ part_of m.now) }
{
    let fields = m.fields();
    let name = text_of(alloc, &fields.name)?;
    let imports = imports_of(alloc, fields.imports.as_slice())?;
    let globals = globals_of(alloc, fields.globals.as_slice())?;
    let procs = procedures_of(alloc, fields, fields.procs.as_slice())?;
    Ok(Program {
        name,
        stack: fields.stack,
        header: Header {
            code: fields.code,
            data_base: fields.data_base,
            closure: fields.closure,
            returns: fields.returns,
            return_count: fields.return_count,
            movable: fields.movable,
        },
        imports: Items::of(imports),
        globals: Items::of(globals),
        procs: Items::of(procs),
    })
}
