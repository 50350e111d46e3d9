//! Expressions without tokens.
ghost use Rattle.std.specs.Prelude.{◌≡◌, IfOk, List, ◌∷◌};
ghost use Rattle.proc_language.specs.View.{args_of};
ghost use Rattle.token_language.specs.declared.tree.TokenArg.{TokenArg};
ghost use Rattle.token_language.specs.View.{args_of as token_args_of};
ghost use Rattle.token_language.specs.Erased.{erased_expr, erased_args};
ghost use Rattle.token_language.specs.Fronts.{args_before, at_most_one};

use crate::names::{add, name};
use crate::{TokenArg, TokenCall, TokenExpr, TokenExprKind};
use cap_words::Items;
use proc_language::{Arg, Call, Expr, ExprKind};
use std::alloc::{AllocError, Global};

/// An expression without tokens.
#[cycle(expr)]
pub(crate) fn expr(alloc: Global, e: &TokenExpr) -> Result<Expr, AllocError>
    ensures { IfOk result (λ x. x ≡ erased_expr e.now) }
{
    let kind = match &e.kind {
        TokenExprKind::Number(n) => ExprKind::Number(*n),
        TokenExprKind::Var(x) => ExprKind::Var(name(alloc, x)?),
        TokenExprKind::Element(x, index) => {
            let x = name(alloc, x)?;
            ExprKind::Element(x, boxed(alloc, index)?)
        }
        TokenExprKind::Call(c) => ExprKind::Call(call(alloc, c)?),
        TokenExprKind::Op(o, left, right) => {
            let left = boxed(alloc, left)?;
            ExprKind::Op(*o, left, boxed(alloc, right)?)
        }
    };
    Ok(Expr { at: e.at, kind })
}

#[cycle(expr)]
fn boxed(alloc: Global, e: &TokenExpr) -> Result<Box<Expr>, AllocError>
    ensures { IfOk result (λ x. x.value ≡ erased_expr e.now) }
{
    Ok(Box::new(alloc, expr(alloc, e)?)?)
}

/// A call without tokens.
#[cycle(expr)]
pub(crate) fn call(alloc: Global, c: &TokenCall) -> Result<Call, AllocError>
    ensures { IfOk result (λ d.
        (d.name ≡ c.now.name) × (args_of d.args ≡ erased_args (token_args_of c.now.args))) }
{
    let name = name(alloc, &c.name)?;
    let args = Items::of(args(alloc, c.args.as_slice())?);
    Ok(Call { name, args })
}

#[cycle(expr)]
fn args(alloc: Global, list: &[TokenArg]) -> Result<Vec<Arg>, AllocError>
    ensures { IfOk result (λ v. args_of v.items ≡ erased_args (token_args_of list.now)) }
{
    let mut kept = Vec::new(alloc);
    for arg in list {
        add(&mut kept, argument(alloc, arg)?)?;
    }
    Ok(kept)
}

// What an argument is without tokens, if it is anything.
#[cycle(expr)]
fn argument(alloc: Global, arg: &TokenArg) -> Result<Option<Arg>, AllocError>
    ensures { IfOk result (λ kept. (rest : List TokenArg)
        → args_before (at_most_one kept) (erased_args (token_args_of rest))
        ≡ erased_args (token_args_of (arg.now ∷ rest))) }
{
    Ok(match arg {
        TokenArg::Value(e) => Some(Arg::Value(expr(alloc, e)?)),
        TokenArg::Proc(f) => Some(Arg::Proc(name(alloc, f)?)),
        TokenArg::Token(_) => None,
    })
}
