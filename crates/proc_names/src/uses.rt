//! The first fault of the names of a module.
ghost use Rattle.std.specs.Prelude.{◌≡◌, ◌==◌, ◌↔◌, [], IsOk, IfErr};
ghost use Rattle.proc_language.specs.Limits.{arg_registers};
ghost use Rattle.proc_language.specs.View.{args_of};
ghost use Rattle.proc_language.specs.StmtView.{block_of};
ghost use Rattle.proc_names.specs.Faults.{first, IsFirstFault, unless};
ghost use Rattle.proc_names.specs.Names.{variable_named, callee_named, passed_named};
ghost use Rattle.proc_names.specs.NameFaults.{plain_faults, array_faults, fit, registers_fit, callback_arity};
ghost use Rattle.proc_names.specs.NameFaults.{import_arity, fit_proc, call_faults, passed_faults};
ghost use Rattle.proc_names.specs.NameFaults.{expr_faults, args_faults, stmt_faults, block_faults};
ghost use Rattle.proc_names.specs.NameFaults.{proc_faults, procs_faults, name_faults, resolved};

use crate::fault::{NameFault, earlier};
use crate::repeats::{items_twice, own_twice};
use crate::scope::{Callee, Variable, callee_named, passed_named, variable_named};
use proc_language::{
    Arg, Call, Expr, ExprKind, Import, Module, ModuleFields, Name, Param, Proc, Stmt, StmtKind,
};

/// Whether each name of a module leads to something that fits its use, and none stands twice. The error
/// is the first fault by its place; of two at one place, the one of the lower number. It takes no
/// memory.
pub fn resolve(m: &Module) -> Result<(), NameFault>
    ensures fine { IsOk result ↔ (name_faults m.now ≡ []) }
    ensures first { IfErr result (IsFirstFault (name_faults m.now)) }
    // The same as a function: so there is one answer.
    ensures is { result ≡ resolved m.now }
{
    match first_fault(m.fields()) {
        None => Ok(()),
        Some(f) => Err(f),
    }
}

#[tactic(auto, using(crate::proofs::FirstLemmas::firsts))]
fn first_fault(m: &ModuleFields) -> Option<NameFault>
    ensures { result ≡ first (name_faults m.now) }
{
    let twice = items_twice(
        m.imports.as_slice(),
        m.globals.as_slice(),
        m.procs.as_slice(),
    );
    earlier(twice, procs_fault(m, m.procs.as_slice()))
}

fn procs_fault(m: &ModuleFields, procs: &[Proc]) -> Option<NameFault>
    ensures { result ≡ first (procs_faults m.now procs.now) }
{
    let mut found = None;
    for p in procs {
        found = earlier(found, proc_fault(m, p));
    }
    found
}

#[tactic(auto, using(crate::proofs::FirstLemmas::firsts))]
fn proc_fault(m: &ModuleFields, p: &Proc) -> Option<NameFault>
    ensures { result ≡ first (proc_faults m.now p.now) }
{
    earlier(own_twice(p), block_fault(m, p, p.body.as_slice()))
}

/// What is wrong with a name that is used without an index, by what it leads to.
pub fn plain_fault(x: &Name, leads: Variable) -> Option<NameFault>
    ensures { result ≡ first (plain_faults x.now leads) }
{
    match leads {
        Variable::Param(_) | Variable::Local(_) | Variable::Global(_) => None,
        Variable::Array(_) | Variable::Other => Some(NameFault::WrongKind(x.at)),
        Variable::Missing => Some(NameFault::Unknown(x.at)),
    }
}

/// What is wrong with a name that is used with an index, by what it leads to.
pub fn array_fault(x: &Name, leads: Variable) -> Option<NameFault>
    ensures { result ≡ first (array_faults x.now leads) }
{
    match leads {
        Variable::Array(_) => None,
        Variable::Missing => Some(NameFault::Unknown(x.at)),
        _ => Some(NameFault::WrongKind(x.at)),
    }
}

// Whether the arguments take so many registers.
fn take(args: &[Arg], n: u32) -> bool
    ensures { result ≡ (arg_registers (args_of args.now) == n) }
{
    match args.split_first() {
        None => n == 0,
        Some((Arg::Value(_), rest)) => n >= 1 && take(rest, n - 1),
        Some((Arg::Proc(_), rest)) => n >= 2 && take(rest, n - 2),
    }
}

fn registers_fit(args: &[Arg], arity: Option<u32>) -> bool
    ensures { result ≡ registers_fit (args_of args.now) arity }
{
    match arity {
        Some(n) => take(args, n),
        None => false,
    }
}

fn callback_arity(params: &[Param], i: usize) -> Option<u32>
    ensures { result ≡ callback_arity params.now i }
{
    match params.get(i) {
        Some(q) => q.arity,
        None => None,
    }
}

/// How many registers the import of an index takes.
pub fn import_arity(imports: &[Import], i: usize) -> Option<u32>
    ensures { result ≡ import_arity imports.now i }
{
    match imports.get(i) {
        Some(x) => Some(x.arity),
        None => None,
    }
}

// Whether arguments fit parameters one by one.
fn fit(args: &[Arg], params: &[Param]) -> bool
    ensures { result ≡ fit (args_of args.now) params.now }
{
    match (args.split_first(), params.split_first()) {
        (None, None) => true,
        (None, Some(_)) => false,
        (Some(_), None) => false,
        (Some((Arg::Value(_), args)), Some((q, params))) => q.arity.is_none() && fit(args, params),
        (Some((Arg::Proc(_), args)), Some((q, params))) => q.arity.is_some() && fit(args, params),
    }
}

fn fit_proc(args: &[Arg], procs: &[Proc], i: usize) -> bool
    ensures { result ≡ fit_proc (args_of args.now) procs.now i }
{
    match procs.get(i) {
        Some(q) => fit(args, q.params.as_slice()),
        None => false,
    }
}

/// A fault where something doesn't hold.
pub fn unless(holds: bool, fault: NameFault) -> Option<NameFault>
    ensures { result ≡ first (unless holds fault) }
{
    if holds { None } else { Some(fault) }
}

// What is wrong with the name of a call.
fn call_fault(m: &ModuleFields, p: &Proc, call: &Call) -> Option<NameFault>
    ensures { result ≡ first (call_faults m.now p.now call.now.name (args_of call.now.args)) }
{
    let args = call.args.as_slice();
    let arity = NameFault::Arity(call.name.at);
    match callee_named(m, p, &call.name) {
        Callee::Callback(i) => unless(
            registers_fit(args, callback_arity(p.params.as_slice(), i)),
            arity,
        ),
        Callee::Import(i) => unless(
            registers_fit(args, import_arity(m.imports.as_slice(), i)),
            arity,
        ),
        Callee::Proc(i) => unless(fit_proc(args, m.procs.as_slice(), i), arity),
        Callee::Other => Some(NameFault::WrongKind(call.name.at)),
        Callee::Missing => Some(NameFault::Unknown(call.name.at)),
    }
}

/// What is wrong with a name that is passed on, by what it leads to.
pub fn passed_fault(f: &Name, leads: Callee) -> Option<NameFault>
    ensures { result ≡ first (passed_faults f.now leads) }
{
    match leads {
        Callee::Callback(_) | Callee::Import(_) | Callee::Proc(_) => None,
        Callee::Other => Some(NameFault::WrongKind(f.at)),
        Callee::Missing => Some(NameFault::Unknown(f.at)),
    }
}

#[cycle(expr)]
#[tactic(auto, using(crate::proofs::FirstLemmas::firsts))]
fn expr_fault(m: &ModuleFields, p: &Proc, e: &Expr) -> Option<NameFault>
    ensures { result ≡ first (expr_faults m.now p.now e.now) }
{
    match &e.kind {
        ExprKind::Number(_) => None,
        ExprKind::Var(x) => plain_fault(x, variable_named(m, p, x)),
        ExprKind::Element(x, index) => earlier(
            array_fault(x, variable_named(m, p, x)),
            expr_fault(m, p, index),
        ),
        ExprKind::Call(call) => earlier(
            call_fault(m, p, call),
            args_fault(m, p, call.args.as_slice()),
        ),
        ExprKind::Op(_, left, right) => earlier(expr_fault(m, p, left), expr_fault(m, p, right)),
    }
}

#[cycle(expr)]
#[tactic(auto, using(crate::proofs::FirstLemmas::firsts))]
fn args_fault(m: &ModuleFields, p: &Proc, args: &[Arg]) -> Option<NameFault>
    ensures { result ≡ first (args_faults m.now p.now (args_of args.now)) }
{
    match args.split_first() {
        None => None,
        Some((Arg::Value(e), rest)) => earlier(expr_fault(m, p, e), args_fault(m, p, rest)),
        Some((Arg::Proc(f), rest)) => earlier(
            passed_fault(f, passed_named(m, p, f)),
            args_fault(m, p, rest),
        ),
    }
}

#[cycle(stmt)]
#[tactic(auto, using(crate::proofs::FirstLemmas::firsts))]
fn stmt_fault(m: &ModuleFields, p: &Proc, s: &Stmt) -> Option<NameFault>
    ensures { result ≡ first (stmt_faults m.now p.now s.now) }
{
    match &s.kind {
        StmtKind::Set(x, e) => earlier(
            plain_fault(x, variable_named(m, p, x)),
            expr_fault(m, p, e),
        ),
        StmtKind::SetAt(x, index, e) => earlier(
            array_fault(x, variable_named(m, p, x)),
            earlier(expr_fault(m, p, index), expr_fault(m, p, e)),
        ),
        StmtKind::Call(call) => earlier(
            call_fault(m, p, call),
            args_fault(m, p, call.args.as_slice()),
        ),
        StmtKind::If(c, body, None) | StmtKind::While(c, body) => earlier(
            expr_fault(m, p, c),
            block_fault(m, p, body.as_slice()),
        ),
        StmtKind::If(c, body, Some(other)) => earlier(
            expr_fault(m, p, c),
            earlier(
                block_fault(m, p, body.as_slice()),
                block_fault(m, p, other.as_slice()),
            ),
        ),
        StmtKind::Return(e) | StmtKind::Halt(e) => expr_fault(m, p, e),
    }
}

#[cycle(stmt)]
#[tactic(auto, using(crate::proofs::FirstLemmas::firsts))]
fn block_fault(m: &ModuleFields, p: &Proc, stmts: &[Stmt]) -> Option<NameFault>
    ensures { result ≡ first (block_faults m.now p.now (block_of stmts.now)) }
{
    let mut found = None;
    for s in stmts {
        found = earlier(found, stmt_fault(m, p, s));
    }
    found
}
