//! Procedures without tokens.
ghost use Rattle.std.specs.Prelude.{◌≡◌, ◌++◌, ◌∷◌, List, IfOk};
ghost use Rattle.token_language.specs.declared.module.TokenParam.{TokenParam};
ghost use Rattle.token_language.specs.declared.module.TokenLocal.{TokenLocal};
ghost use Rattle.token_language.specs.Erased.{erased_params, erased_locals, erased_proc};
ghost use Rattle.token_language.specs.Fronts.{at_most_one};

use crate::names::{add, name};
use crate::stmts::body;
use crate::{TokenLocal, TokenParam, TokenProc};
use cap_words::Items;
use proc_language::{Name, Param, Proc};
use std::alloc::{AllocError, Global};

/// A procedure without tokens.
pub(crate) fn proc(alloc: Global, p: &TokenProc) -> Result<Proc, AllocError>
    ensures { IfOk result (λ q. q ≡ erased_proc p.now) }
{
    let name = name(alloc, &p.name)?;
    let params = params(alloc, p.params.as_slice())?;
    let locals = locals(alloc, p.locals.as_slice())?;
    let body = body(alloc, p.body.as_slice())?;
    Ok(Proc {
        at: p.at,
        shared: p.shared,
        name,
        params: Items::of(params),
        locals: Items::of(locals),
        body: Items::of(body),
    })
}

fn params(alloc: Global, list: &[TokenParam]) -> Result<Vec<Param>, AllocError>
    ensures { IfOk result (λ v. v.items ≡ erased_params list.now) }
{
    let mut kept = Vec::new(alloc);
    for q in list {
        add(&mut kept, param(alloc, q)?)?;
    }
    Ok(kept)
}

fn param(alloc: Global, q: &TokenParam) -> Result<Option<Param>, AllocError>
    ensures { IfOk result (λ kept. (rest : List TokenParam)
        → at_most_one kept ++ erased_params rest ≡ erased_params (q.now ∷ rest)) }
{
    match q {
        TokenParam::Plain(q) => {
            let name = name(alloc, &q.name)?;
            Ok(Some(Param {
                name,
                arity: q.arity,
            }))
        }
        TokenParam::Token(_) => Ok(None),
    }
}

fn locals(alloc: Global, list: &[TokenLocal]) -> Result<Vec<Name>, AllocError>
    ensures { IfOk result (λ v. v.items ≡ erased_locals list.now) }
{
    let mut kept = Vec::new(alloc);
    for x in list {
        add(&mut kept, local(alloc, x)?)?;
    }
    Ok(kept)
}

fn local(alloc: Global, x: &TokenLocal) -> Result<Option<Name>, AllocError>
    ensures { IfOk result (λ kept. (rest : List TokenLocal)
        → at_most_one kept ++ erased_locals rest ≡ erased_locals (x.now ∷ rest)) }
{
    match x {
        TokenLocal::Plain(x) => Ok(Some(name(alloc, x)?)),
        TokenLocal::Token(_) => Ok(None),
    }
}
