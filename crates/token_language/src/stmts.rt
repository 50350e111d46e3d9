//! Statements without tokens.
ghost use Rattle.std.specs.Prelude.{◌≡◌, IfOk};
ghost use Rattle.proc_language.specs.Tree.{Block};
ghost use Rattle.proc_language.specs.StmtView.{block_of};
ghost use Rattle.proc_language.specs.declared.tree.StmtKind.TheVariants as plain;
ghost use Rattle.token_language.specs.StmtView.{block_of as token_block_of};
ghost use Rattle.token_language.specs.Erased.{erased_expr, erased_before, erased_block, stmts_in};
ghost use Rattle.token_language.specs.Fronts.{stmts_before, at_most_one};

use crate::exprs::{call, expr};
use crate::names::{add, name};
use crate::{TokenExpr, TokenStmt, TokenStmtKind};
use cap_words::Items;
use proc_language::{Expr, Name, Stmt, StmtKind};
use std::alloc::{AllocError, Global};

// A variable is set.
fn set(alloc: Global, x: &Name, e: &TokenExpr) -> Result<StmtKind, AllocError>
    ensures { IfOk result (λ k. k ≡ plain.Set x.now (erased_expr e.now)) }
{
    let x = name(alloc, x)?;
    Ok(StmtKind::Set(x, expr(alloc, e)?))
}

// An element of an array is set.
fn set_at(alloc: Global, x: &Name, index: &TokenExpr, e: &TokenExpr) -> Result<StmtKind, AllocError>
    ensures { IfOk result (λ k. k ≡ plain.SetAt x.now (erased_expr index.now) (erased_expr e.now)) }
{
    let x = name(alloc, x)?;
    let index = expr(alloc, index)?;
    Ok(StmtKind::SetAt(x, index, expr(alloc, e)?))
}

// A condition and what it guards.
#[cycle(block)]
fn guarded(
    alloc: Global,
    c: &TokenExpr,
    body: &[TokenStmt],
) -> Result<(Expr, Items<Stmt>), AllocError>
    ensures { IfOk result (λ g.
        (g.0 ≡ erased_expr c.now) × (block_of g.1 ≡ erased_block (token_block_of body.now))) }
{
    let c = expr(alloc, c)?;
    Ok((c, Items::of(block(alloc, body)?)))
}

// A condition, what is done where it holds, and what is done where it doesn't.
#[cycle(block)]
fn branched(
    alloc: Global,
    c: &TokenExpr,
    body: &[TokenStmt],
    other: &[TokenStmt],
) -> Result<(Expr, Items<Stmt>, Items<Stmt>), AllocError>
    ensures { IfOk result (λ g. (g.0 ≡ erased_expr c.now)
        × (block_of g.1 ≡ erased_block (token_block_of body.now))
        × (block_of g.2 ≡ erased_block (token_block_of other.now))) }
{
    let (c, body) = guarded(alloc, c, body)?;
    let other = Items::of(block(alloc, other)?);
    Ok((c, body, other))
}

// What a statement is without tokens, if it is anything.
#[cycle(block)]
fn statement(alloc: Global, s: &TokenStmt) -> Result<Option<Stmt>, AllocError>
    ensures { IfOk result (λ kept. (b : Block) → stmts_before (at_most_one kept) b ≡ erased_before s.now b) }
{
    let kind = match &s.kind {
        TokenStmtKind::Set(x, e) => set(alloc, x, e)?,
        TokenStmtKind::SetAt(x, index, e) => set_at(alloc, x, index, e)?,
        TokenStmtKind::Call(c) => StmtKind::Call(call(alloc, c)?),
        TokenStmtKind::If(c, body, None) => {
            let (c, body) = guarded(alloc, c, body.as_slice())?;
            StmtKind::If(c, body, None)
        }
        TokenStmtKind::If(c, body, Some(other)) => {
            let (c, body, other) = branched(alloc, c, body.as_slice(), other.as_slice())?;
            StmtKind::If(c, body, Some(other))
        }
        TokenStmtKind::While(c, body) => {
            let (c, body) = guarded(alloc, c, body.as_slice())?;
            StmtKind::While(c, body)
        }
        TokenStmtKind::Return(e) => StmtKind::Return(expr(alloc, e)?),
        TokenStmtKind::Halt(e) => StmtKind::Halt(expr(alloc, e)?),
        TokenStmtKind::Make(_) | TokenStmtKind::Spend(_) => return Ok(None),
    };
    Ok(Some(Stmt { at: s.at, kind }))
}

/// The statements of a body without tokens.
pub(crate) fn body(alloc: Global, stmts: &[TokenStmt]) -> Result<Vec<Stmt>, AllocError>
    ensures { IfOk result (λ v. v.items ≡ stmts_in (erased_block (token_block_of stmts.now))) }
{
    let kept = block(alloc, stmts)?;
    Ok(kept)
}

#[cycle(block)]
fn block(alloc: Global, stmts: &[TokenStmt]) -> Result<Vec<Stmt>, AllocError>
    ensures { IfOk result (λ v. block_of v.items ≡ erased_block (token_block_of stmts.now)) }
{
    let mut kept = Vec::new(alloc);
    for s in stmts {
        add(&mut kept, statement(alloc, s)?)?;
    }
    Ok(kept)
}
