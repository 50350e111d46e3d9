//! The first fault of the names of a module with tokens.
ghost use Rattle.std.specs.Prelude.{◌≡◌, ◌↔◌, List, ◌∷◌, IsOk, IfErr};
ghost use Rattle.proc_names.specs.Faults.{first, earlier, IsFirstFault};
ghost use Rattle.token_language.specs.declared.tree.TokenArg.{TokenArg};
ghost use Rattle.token_language.specs.View.{args_of};
ghost use Rattle.token_language.specs.StmtView.{block_of};
ghost use Rattle.token_language.specs.TokenFaults.{or_token, variable_faults, element_faults, handed_faults};
ghost use Rattle.token_language.specs.TokenFaults.{expr_faults, args_faults, stmt_faults, block_faults};
ghost use Rattle.token_language.specs.TokenFaults.{proc_faults, procs_faults, token_name_faults};
ghost use Rattle.token_language.specs.TokenFaults.{IsTokenResolved, resolved_tokens};

use crate::calls::{call_fault, shared_fault, token_fault};
use crate::scope::{is_token, passed_named, variable_named};
use crate::{
    TokenArg, TokenExpr, TokenExprKind, TokenModule, TokenModuleFields, TokenProc, TokenStmt,
    TokenStmtKind,
};
use proc_language::Name;
use proc_names::{
    Callee, NameFault, array_fault, earlier, items_twice, passed_fault, plain_fault, twice_in_two,
};

/// Whether each name of a module with tokens leads to something that fits its use, and none stands twice.
/// The error is the first fault by its place; of two at one place, the one of the lower number. It takes
/// no memory.
pub fn resolve_tokens(m: &TokenModule) -> Result<(), NameFault>
    ensures fine { IsOk result ↔ IsTokenResolved m.now }
    ensures first { IfErr result (IsFirstFault (token_name_faults m.now)) }
    // The same as a function: so there is one answer.
    ensures is { result ≡ resolved_tokens m.now }
{
    match first_fault(m.fields()) {
        None => Ok(()),
        Some(f) => Err(f),
    }
}

#[tactic(auto, using(proc_names::proofs::Offers::firsts))]
fn first_fault(m: &TokenModuleFields) -> Option<NameFault>
    ensures { result ≡ first (token_name_faults m.now) }
{
    let twice = items_twice(
        m.imports.as_slice(),
        m.globals.as_slice(),
        m.procs.as_slice(),
    );
    earlier(twice, procs_fault(m, m.procs.as_slice()))
}

fn procs_fault(m: &TokenModuleFields, procs: &[TokenProc]) -> Option<NameFault>
    ensures { result ≡ first (procs_faults m.now procs.now) }
{
    let mut found = None;
    for p in procs {
        found = earlier(found, proc_fault(m, p));
    }
    found
}

#[tactic(auto, using(proc_names::proofs::Offers::firsts))]
fn proc_fault(m: &TokenModuleFields, p: &TokenProc) -> Option<NameFault>
    ensures { result ≡ first (proc_faults m.now p.now) }
{
    let twice = twice_in_two(p.params.as_slice(), p.locals.as_slice());
    earlier(
        twice,
        earlier(shared_fault(p), block_fault(m, p, p.body.as_slice())),
    )
}

// What is wrong with a name that is used without an index.
fn variable_fault(m: &TokenModuleFields, p: &TokenProc, x: &Name) -> Option<NameFault>
    ensures { result ≡ first (variable_faults m.now p.now x.now) }
{
    if is_token(p, x) {
        return Some(NameFault::WrongKind(x.at));
    }
    plain_fault(x, variable_named(m, p, x))
}

// What is wrong with a name that is used with an index.
fn element_fault(m: &TokenModuleFields, p: &TokenProc, x: &Name) -> Option<NameFault>
    ensures { result ≡ first (element_faults m.now p.now x.now) }
{
    if is_token(p, x) {
        return Some(NameFault::WrongKind(x.at));
    }
    array_fault(x, variable_named(m, p, x))
}

fn or_token(token: bool, leads: Callee) -> Callee
    ensures { result ≡ or_token token leads }
{
    match (token, leads) {
        (true, Callee::Missing) => Callee::Other,
        (_, leads) => leads,
    }
}

// What is wrong with a name that is passed on.
fn handed_fault(m: &TokenModuleFields, p: &TokenProc, f: &Name) -> Option<NameFault>
    ensures { result ≡ first (handed_faults m.now p.now f.now) }
{
    passed_fault(f, or_token(is_token(p, f), passed_named(m, p, f)))
}

#[cycle(expr)]
#[tactic(auto, using(proc_names::proofs::Offers::firsts))]
fn expr_fault(m: &TokenModuleFields, p: &TokenProc, e: &TokenExpr) -> Option<NameFault>
    ensures { result ≡ first (expr_faults m.now p.now e.now) }
{
    match &e.kind {
        TokenExprKind::Number(_) => None,
        TokenExprKind::Var(x) => variable_fault(m, p, x),
        TokenExprKind::Element(x, index) => earlier(
            element_fault(m, p, x),
            expr_fault(m, p, index),
        ),
        TokenExprKind::Call(call) => earlier(
            call_fault(m, p, call),
            args_fault(m, p, call.args.as_slice()),
        ),
        TokenExprKind::Op(_, left, right) => earlier(
            expr_fault(m, p, left),
            expr_fault(m, p, right),
        ),
    }
}

#[cycle(expr)]
fn args_fault(m: &TokenModuleFields, p: &TokenProc, args: &[TokenArg]) -> Option<NameFault>
    ensures { result ≡ first (args_faults m.now p.now (args_of args.now)) }
{
    let mut found = None;
    for arg in args {
        found = earlier(found, arg_fault(m, p, arg));
    }
    found
}

#[cycle(expr)]
#[tactic(auto, using(proc_names::proofs::Offers::firsts))]
fn arg_fault(m: &TokenModuleFields, p: &TokenProc, arg: &TokenArg) -> Option<NameFault>
    ensures { (rest : List TokenArg) → earlier result (first (args_faults m.now p.now (args_of rest)))
        ≡ first (args_faults m.now p.now (args_of (arg.now ∷ rest))) }
{
    match arg {
        TokenArg::Value(e) => expr_fault(m, p, e),
        TokenArg::Proc(f) => handed_fault(m, p, f),
        TokenArg::Token(x) => token_fault(p, x),
    }
}

#[cycle(stmt)]
#[tactic(auto, using(proc_names::proofs::Offers::firsts))]
fn stmt_fault(m: &TokenModuleFields, p: &TokenProc, s: &TokenStmt) -> Option<NameFault>
    ensures { result ≡ first (stmt_faults m.now p.now s.now) }
{
    match &s.kind {
        TokenStmtKind::Set(x, e) => earlier(variable_fault(m, p, x), expr_fault(m, p, e)),
        TokenStmtKind::SetAt(x, index, e) => earlier(
            element_fault(m, p, x),
            earlier(expr_fault(m, p, index), expr_fault(m, p, e)),
        ),
        TokenStmtKind::Call(call) => earlier(
            call_fault(m, p, call),
            args_fault(m, p, call.args.as_slice()),
        ),
        TokenStmtKind::If(c, body, None) | TokenStmtKind::While(c, body) => earlier(
            expr_fault(m, p, c),
            block_fault(m, p, body.as_slice()),
        ),
        TokenStmtKind::If(c, body, Some(other)) => earlier(
            expr_fault(m, p, c),
            earlier(
                block_fault(m, p, body.as_slice()),
                block_fault(m, p, other.as_slice()),
            ),
        ),
        TokenStmtKind::Return(e) | TokenStmtKind::Halt(e) => expr_fault(m, p, e),
        TokenStmtKind::Make(x) => token_fault(p, x),
        TokenStmtKind::Spend(x) => token_fault(p, x),
    }
}

#[cycle(stmt)]
#[tactic(auto, using(proc_names::proofs::Offers::firsts))]
fn block_fault(m: &TokenModuleFields, p: &TokenProc, stmts: &[TokenStmt]) -> Option<NameFault>
    ensures { result ≡ first (block_faults m.now p.now (block_of stmts.now)) }
{
    let mut found = None;
    for s in stmts {
        found = earlier(found, stmt_fault(m, p, s));
    }
    found
}
