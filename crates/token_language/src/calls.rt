//! What is wrong with the name of a call, or with a token.
ghost use Rattle.std.specs.Prelude.{◌≡◌, ◌+◌, ◌==◌, ◌&&◌, List, ◌∷◌};
ghost use Rattle.proc_language.specs.Limits.{arg_registers};
ghost use Rattle.proc_names.specs.Faults.{first, earlier};
ghost use Rattle.proc_names.specs.NameFaults.{registers_fit};
ghost use Rattle.token_language.specs.declared.module.TokenParam.{TokenParam};
ghost use Rattle.token_language.specs.declared.tree.TokenArg.{TokenArg};
ghost use Rattle.token_language.specs.View.{args_of};
ghost use Rattle.token_language.specs.Tokens.{param_tokens};
ghost use Rattle.token_language.specs.Erased.{erased_args};
ghost use Rattle.token_language.specs.TokenFaults.{token_faults, wrong, arg_tokens, fit, fit_proc};
ghost use Rattle.token_language.specs.TokenFaults.{outside_faults, call_faults, shared_faults};

use crate::scope::{callback_arity, callee_named, is_plain, is_token};
use crate::{TokenArg, TokenCall, TokenModuleFields, TokenParam, TokenProc};
use proc_language::Name;
use proc_names::{Callee, NameFault, earlier, import_arity, unless};

/// What is wrong with a name that is to be a token.
pub(crate) fn token_fault(p: &TokenProc, x: &Name) -> Option<NameFault>
    ensures { result ≡ first (token_faults p.now x.now) }
{
    if is_token(p, x) {
        return None;
    }
    if is_plain(p, x) {
        Some(NameFault::WrongKind(x.at))
    } else {
        Some(NameFault::Unknown(x.at))
    }
}

/// What is wrong with the token parameters of a procedure.
pub(crate) fn shared_fault(p: &TokenProc) -> Option<NameFault>
    ensures { result ≡ first (shared_faults p.now) }
{
    if p.shared {
        wrong_params(p.params.as_slice())
    } else {
        None
    }
}

// No parameter may be a token.
fn wrong_params(params: &[TokenParam]) -> Option<NameFault>
    ensures { result ≡ first (wrong (param_tokens params.now)) }
{
    match params.split_first() {
        None => None,
        Some((TokenParam::Plain(_), rest)) => wrong_params(rest),
        Some((TokenParam::Token(x), rest)) => earlier(
            Some(NameFault::WrongKind(x.at)),
            wrong_params(rest),
        ),
    }
}

// No argument may be a token.
fn wrong_args(args: &[TokenArg]) -> Option<NameFault>
    ensures { result ≡ first (wrong (arg_tokens (args_of args.now))) }
{
    let mut found = None;
    for arg in args {
        found = earlier(found, wrong_arg(arg));
    }
    found
}

fn wrong_arg(arg: &TokenArg) -> Option<NameFault>
    ensures { (rest : List TokenArg) → earlier result (first (wrong (arg_tokens (args_of rest))))
        ≡ first (wrong (arg_tokens (args_of (arg.now ∷ rest)))) }
{
    match arg {
        TokenArg::Value(_) | TokenArg::Proc(_) => None,
        TokenArg::Token(x) => Some(NameFault::WrongKind(x.at)),
    }
}

// Whether the arguments take so many registers.
fn take(args: &[TokenArg], n: u32) -> bool
    ensures { result ≡ (arg_registers (erased_args (args_of args.now)) == n) }
{
    let mut left = n;
    for arg in args {
        let taken = registers(arg);
        if left < taken {
            return false;
        }
        left -= taken;
    }
    left == 0
}

fn registers(arg: &TokenArg) -> u32
    ensures { (rest : List TokenArg) → arg_registers (erased_args (args_of (arg.now ∷ rest)))
        ≡ arg_registers (erased_args (args_of rest)) + result }
{
    match arg {
        TokenArg::Value(_) => 1,
        TokenArg::Proc(_) => 2,
        TokenArg::Token(_) => 0,
    }
}

fn registers_fit(args: &[TokenArg], arity: Option<u32>) -> bool
    ensures { result ≡ registers_fit (erased_args (args_of args.now)) arity }
{
    match arity {
        Some(n) => take(args, n),
        None => false,
    }
}

// Whether an argument fits a parameter.
fn fits(arg: &TokenArg, param: &TokenParam) -> bool
    ensures { (args : List TokenArg) (params : List TokenParam) → (result && fit (args_of args) params)
        ≡ fit (args_of (arg.now ∷ args)) (param.now ∷ params) }
{
    match (arg, param) {
        (TokenArg::Value(_), TokenParam::Plain(q)) => q.arity.is_none(),
        (TokenArg::Proc(_), TokenParam::Plain(q)) => q.arity.is_some(),
        (TokenArg::Token(_), TokenParam::Token(_)) => true,
        _ => false,
    }
}

// Whether arguments fit parameters one by one.
fn fit(args: &[TokenArg], params: &[TokenParam]) -> bool
    ensures { result ≡ fit (args_of args.now) params.now }
{
    match (args.split_first(), params.split_first()) {
        (None, None) => true,
        (Some((arg, args)), Some((param, params))) => fits(arg, param) && fit(args, params),
        (None, Some(_)) | (Some(_), None) => false,
    }
}

fn fit_proc(args: &[TokenArg], procs: &[TokenProc], i: usize) -> bool
    ensures { result ≡ fit_proc (args_of args.now) procs.now i }
{
    match procs.get(i) {
        Some(q) => fit(args, q.params.as_slice()),
        None => false,
    }
}

// What is wrong with a call of a callback or an import that takes so many registers.
#[tactic(auto, using(proc_names::proofs::Offers::firsts))]
fn outside_fault(call: &TokenCall, arity: Option<u32>) -> Option<NameFault>
    ensures { result ≡ first (outside_faults call.now.name (args_of call.now.args) arity) }
{
    let args = call.args.as_slice();
    earlier(
        unless(registers_fit(args, arity), NameFault::Arity(call.name.at)),
        wrong_args(args),
    )
}

/// What is wrong with the name of a call, and with tokens that are handed out of the module.
pub(crate) fn call_fault(
    m: &TokenModuleFields,
    p: &TokenProc,
    call: &TokenCall,
) -> Option<NameFault>
    ensures { result ≡ first (call_faults m.now p.now call.now.name (args_of call.now.args)) }
{
    match callee_named(m, p, &call.name) {
        Callee::Callback(i) => outside_fault(call, callback_arity(p.params.as_slice(), i)),
        Callee::Import(i) => outside_fault(call, import_arity(m.imports.as_slice(), i)),
        Callee::Proc(i) => unless(
            fit_proc(call.args.as_slice(), m.procs.as_slice(), i),
            NameFault::Arity(call.name.at),
        ),
        Callee::Other => Some(NameFault::WrongKind(call.name.at)),
        Callee::Missing => Some(NameFault::Unknown(call.name.at)),
    }
}
