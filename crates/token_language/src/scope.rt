//! Where names lead in a module without its tokens, and which of them are tokens.
ghost use Rattle.std.specs.Prelude.{◌≡◌, ◌<◌, ◌&&◌, IfSome, length, position, option_map, slice_get};
ghost use Rattle.std.specs.List.{list_any};
ghost use Rattle.proc_names.specs.Names.{same, index_of, is_callback, callback_index};
ghost use Rattle.proc_names.specs.Names.{variable_named, callee_named, passed_named, is_taken};
ghost use Rattle.proc_names.specs.NameFaults.{callback_arity};
ghost use Rattle.token_language.specs.Tokens.{param_tokens, local_tokens};
ghost use Rattle.token_language.specs.Erased.{erased, erased_params, erased_locals, erased_proc};
ghost use Rattle.token_language.specs.TokenFaults.{is_token, is_plain};

use crate::{TokenLocal, TokenModuleFields, TokenParam, TokenProc};
use proc_language::Name;
use proc_names::{Callee, Variable, index_of, is_there, item_callee, item_variable, same};

// ---- parameters and locals: the index is that among those that are no tokens

#[tactic(auto, using(crate::proofs::FoundLemmas::founds))]
fn param_index(params: &[TokenParam], x: &Name) -> Option<usize>
    ensures is { result ≡ index_of (λ q. q.name) (erased_params params.now) x.now }
    ensures within { IfSome result (λ i. i < length params.now) }
{
    match params.split_first() {
        None => None,
        Some((TokenParam::Token(_), rest)) => param_index(rest, x),
        Some((TokenParam::Plain(q), rest)) => {
            if same(&q.name, x) {
                Some(0)
            } else {
                Some(param_index(rest, x)? + 1)
            }
        }
    }
}

#[tactic(auto, using(crate::proofs::FoundLemmas::founds))]
fn callback_index(params: &[TokenParam], f: &Name) -> Option<usize>
    ensures is { result ≡ callback_index (erased_params params.now) f.now }
    ensures within { IfSome result (λ i. i < length params.now) }
{
    match params.split_first() {
        None => None,
        Some((TokenParam::Token(_), rest)) => callback_index(rest, f),
        Some((TokenParam::Plain(q), rest)) => {
            if q.arity.is_some() && same(&q.name, f) {
                Some(0)
            } else {
                Some(callback_index(rest, f)? + 1)
            }
        }
    }
}

#[tactic(auto, using(crate::proofs::FoundLemmas::founds))]
fn local_index(locals: &[TokenLocal], x: &Name) -> Option<usize>
    ensures is { result ≡ index_of (λ y. y) (erased_locals locals.now) x.now }
    ensures within { IfSome result (λ i. i < length locals.now) }
{
    match locals.split_first() {
        None => None,
        Some((TokenLocal::Token(_), rest)) => local_index(rest, x),
        Some((TokenLocal::Plain(y), rest)) => {
            if same(y, x) {
                Some(0)
            } else {
                Some(local_index(rest, x)? + 1)
            }
        }
    }
}

// Whether the parameter is a callback, and how many registers a call of it hands over.
#[tactic(auto, using(crate::proofs::FoundLemmas::founds))]
fn param_arity(params: &[TokenParam], i: usize) -> Option<Option<u32>>
    ensures { result ≡ option_map (λ q. q.arity) (slice_get (erased_params params.now) i) }
{
    match params.split_first() {
        None => None,
        Some((TokenParam::Token(_), rest)) => param_arity(rest, i),
        Some((TokenParam::Plain(q), rest)) => {
            if i == 0 {
                Some(q.arity)
            } else {
                param_arity(rest, i - 1)
            }
        }
    }
}

fn is_callback(params: &[TokenParam], i: usize) -> bool
    ensures { result ≡ is_callback (erased_params params.now) i }
{
    match param_arity(params, i) {
        Some(arity) => arity.is_some(),
        None => false,
    }
}

pub(crate) fn callback_arity(params: &[TokenParam], i: usize) -> Option<u32>
    ensures { result ≡ callback_arity (erased_params params.now) i }
{
    match param_arity(params, i) {
        Some(arity) => arity,
        None => None,
    }
}

// ---- names

#[tactic(auto, unfolding(proc_names::specs::Names::variable_named))]
pub(crate) fn variable_named(m: &TokenModuleFields, p: &TokenProc, x: &Name) -> Variable
    ensures { result ≡ variable_named (erased m.now) (erased_proc p.now) x.now }
{
    let params = p.params.as_slice();
    if let Some(i) = param_index(params, x) {
        return if is_callback(params, i) {
            Variable::Other
        } else {
            Variable::Param(i)
        };
    }
    if let Some(i) = local_index(p.locals.as_slice(), x) {
        return Variable::Local(i);
    }
    item_variable(
        m.imports.as_slice(),
        m.globals.as_slice(),
        m.procs.as_slice(),
        x,
    )
}

#[tactic(auto, unfolding(proc_names::specs::Names::callee_named))]
pub(crate) fn callee_named(m: &TokenModuleFields, p: &TokenProc, f: &Name) -> Callee
    ensures { result ≡ callee_named (erased m.now) (erased_proc p.now) f.now }
{
    if let Some(i) = callback_index(p.params.as_slice(), f) {
        return Callee::Callback(i);
    }
    item_callee(
        m.imports.as_slice(),
        m.globals.as_slice(),
        m.procs.as_slice(),
        f,
    )
}

fn shared_index(procs: &[TokenProc], f: &Name) -> Option<usize>
    ensures { result ≡ position (λ q. q.shared && same q.name f.now) procs.now }
{
    procs.iter().position(|q| q.shared && same(&q.name, f))
}

/// Whether a parameter or local that is no token has the name.
pub(crate) fn is_plain(p: &TokenProc, x: &Name) -> bool
    ensures { result ≡ is_plain p.now x.now }
{
    param_index(p.params.as_slice(), x).is_some() || local_index(p.locals.as_slice(), x).is_some()
}

fn is_taken(m: &TokenModuleFields, p: &TokenProc, f: &Name) -> bool
    ensures { result ≡ is_taken (erased m.now) (erased_proc p.now) f.now }
{
    if is_plain(p, f) || is_there(m.globals.as_slice(), f) {
        return true;
    }
    is_there(m.procs.as_slice(), f)
}

#[tactic(auto, unfolding(proc_names::specs::Names::passed_named))]
pub(crate) fn passed_named(m: &TokenModuleFields, p: &TokenProc, f: &Name) -> Callee
    ensures { result ≡ passed_named (erased m.now) (erased_proc p.now) f.now }
{
    if let Some(i) = callback_index(p.params.as_slice(), f) {
        return Callee::Callback(i);
    }
    if let Some(i) = index_of(m.imports.as_slice(), f) {
        return Callee::Import(i);
    }
    if let Some(i) = shared_index(m.procs.as_slice(), f) {
        return Callee::Proc(i);
    }
    if is_taken(m, p, f) {
        Callee::Other
    } else {
        Callee::Missing
    }
}

// ---- tokens

/// Whether some token of the procedure has the name.
#[tactic(auto, using(crate::proofs::TokenLemmas::tokens))]
pub(crate) fn is_token(p: &TokenProc, x: &Name) -> bool
    ensures { result ≡ is_token p.now x.now }
{
    param_is_token(p.params.as_slice(), x) || local_is_token(p.locals.as_slice(), x)
}

fn param_is_token(params: &[TokenParam], x: &Name) -> bool
    ensures { result ≡ list_any (λ y. same y x.now) (param_tokens params.now) }
{
    match params.split_first() {
        None => false,
        Some((TokenParam::Plain(_), rest)) => param_is_token(rest, x),
        Some((TokenParam::Token(y), rest)) => same(y, x) || param_is_token(rest, x),
    }
}

fn local_is_token(locals: &[TokenLocal], x: &Name) -> bool
    ensures { result ≡ list_any (λ y. same y x.now) (local_tokens locals.now) }
{
    match locals.split_first() {
        None => false,
        Some((TokenLocal::Plain(_), rest)) => local_is_token(rest, x),
        Some((TokenLocal::Token(y), rest)) => same(y, x) || local_is_token(rest, x),
    }
}
